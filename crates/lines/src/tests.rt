use crate::*;
use std::test::Fail;

#[test]
fn reads_lines(rt: HostRuntime) -> Result<(), Fail> {
    let heap = rt.alloc();
    assert!(rt; matches!(read_line(heap, b"prime=929")?, Some(Line::Prime(929))));
    assert!(rt; matches!(read_line(heap, b"prime=0")?, Some(Line::Prime(0))));
    assert!(rt;
        matches!(
            read_line(heap, b"length=4294967295")?,
            Some(Line::Length(4294967295))
        )
    );
    let Some(Line::Alpha(alpha)) = read_line(heap, b"alpha=0")? else {
        return Err(Fail::new("alpha"));
    };
    assert!(rt; alpha.as_slice() == [0].as_slice());
    let Some(Line::Find(find)) = read_line(heap, b"find=1,2,3,4")? else {
        return Err(Fail::new("find"));
    };
    assert!(rt; find.as_slice() == [1, 2, 3, 4].as_slice());
    Ok(())
}

#[test]
fn refuses_other_bytes(rt: HostRuntime) -> Result<(), Fail> {
    let others: [&[u8]; 14] = [
        b"",
        b"prime",
        b"prime=",
        b"Prime=3",
        b"prime=0929",
        b"prime=+929",
        b"prime=4294967296",
        b"prime=929\r",
        b"prime=9 ",
        b"alpha=1,",
        b"alpha=,1",
        b"alpha=1,,2",
        b"find=\xff",
        b"find=1\0",
    ];
    for bytes in others {
        assert!(rt; read_line(rt.alloc(), bytes)?.is_none());
    }
    Ok(())
}

#[test]
fn writes_numbers(rt: HostRuntime) -> Result<(), Fail> {
    let mut out = Vec::new(rt.alloc());
    put_numbers(&mut out, &[0, 929, 4294967295])?;
    assert!(rt; out.as_slice() == b"0,929,4294967295".as_slice());
    Ok(())
}

#[test]
fn shows_values(rt: HostRuntime) -> Result<(), Fail> {
    let mut out = Vec::new(rt.alloc());
    put(&mut out, &Numbers(&[7, 0]))?;
    put(&mut out, &'x')?;
    assert!(rt; out.as_slice() == b"7,0x".as_slice());
    Ok(())
}
