// Executes values that were computed elsewhere, and prints how many agree.
#![tactic(auto)]

mod agreement;
mod blocks;
mod failures;
mod fields;
mod orders;
mod pdf417;
mod towers;
mod units;
mod values;

use failures::Failure;
use prime_field::PrimeField;

fn main(rt: HostRuntime) -> Result<(), Failure> {
    values::worked_values_hold();
    values::prime_tower_signs_are_sgn0();
    print_fields(&rt)?;
    print_towers(&rt)?;
    print_large_roots(&rt)?;
    let sealings = units::sealings();
    println!(rt; "sealings: {sealings}")?;
    let field = PrimeField::new(929, 3)?;
    print_blocks(&rt, &field)?;
    let orders = orders::day(rt.alloc(), field)?;
    println!(rt; "orders of a day: {orders}")?;
    Ok(())
}

fn print_fields(rt: &HostRuntime) -> Result<(), Failure> {
    let roots = fields::known_roots();
    println!(rt; "known roots: {roots}")?;
    let refused = fields::refused_makings();
    println!(rt; "fields refused: {refused}")?;
    let made = fields::makings();
    println!(rt; "fields made: {made}")?;
    Ok(())
}

fn print_towers(rt: &HostRuntime) -> Result<(), Failure> {
    for (p, r, beta, gamma) in [(3, 2, 2, (1, 1)), (7, 3, 3, (1, 1))] {
        let tallies = towers::every_root(rt.alloc(), p, r, beta, gamma)?;
        for (height, tally) in tallies.iter().enumerate() {
            println!(rt; "every root modulo {p} at height {height}: {tally}")?;
        }
    }
    Ok(())
}

fn print_large_roots(rt: &HostRuntime) -> Result<(), Failure> {
    for (p, r) in [(2013265921, 31), (4294967291, 2)] {
        let roots = fields::large_roots(p, r)?;
        println!(rt; "roots of squares modulo {p}: {roots}")?;
    }
    Ok(())
}

fn print_blocks(rt: &HostRuntime, field: &PrimeField) -> Result<(), Failure> {
    let written = blocks::written(field, &blocks::WORDS);
    println!(rt; "blocks written: {written}")?;
    let words = blocks::written(field, &pdf417::WORDS);
    println!(rt; "blocks written as PDF417 has them: {words}")?;
    let corrected = blocks::corrected(field);
    println!(rt; "blocks corrected: {corrected}")?;
    let refuses = blocks::refuses_length(field);
    println!(rt; "a block of another length is refused: {refuses}")?;
    Ok(())
}
