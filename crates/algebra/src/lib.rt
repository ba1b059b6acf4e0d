// Fields and rooted fields: what they mean, the laws that they keep, and a root on its own.
#![tactic(auto)]

ghost use Rattle.std.specs.Prelude.{◌≡◌, Decides};
ghost use Rattle.algebra.specs.Laws.{Laws};
ghost use Rattle.algebra.specs.Operations.{Ops, In};
ghost use Rattle.algebra.specs.Roots.{AnswersRoot, Rooted};

mod faults;
mod identities;
mod numbers;
mod roots;

pub use faults::{FieldFault, Layer};
pub use identities::ring_identities;
pub use roots::{find_root, roots_are_unique};

// A field: a value that computes with elements of the type `Elem`. Every value of such a type keeps the laws.
// Every method but `contains` is given elements, and leaves the field as it was.
// Elements are plain values, numbers or pairs, which no type can tie to a field: so each method asks that its arguments are.
pub trait Field {
    type Elem: Copy;

    // what the field means
    ghost ops: { Self → Ops Self.Elem };

    // Whether a is an element.
    fn contains(&self, a: Self::Elem) -> bool
        ensures { result ≡ (ops self.now).is a };

    fn equal(&self, a: Self::Elem, b: Self::Elem) -> bool
        requires { In (ops self.now) a × In (ops self.now) b }
        ensures value { result ≡ (ops self.now).same a b }
        ensures tells { Decides result (a ≡ b) };

    fn zero(&self) -> Self::Elem
        ensures value { result ≡ (ops self.now).zero }
        ensures inside { In (ops self.now) result };

    fn one(&self) -> Self::Elem
        ensures value { result ≡ (ops self.now).one }
        ensures inside { In (ops self.now) result };

    fn add(&self, a: Self::Elem, b: Self::Elem) -> Self::Elem
        requires { In (ops self.now) a × In (ops self.now) b }
        ensures value { result ≡ (ops self.now).add a b }
        ensures inside { In (ops self.now) result };

    fn mul(&self, a: Self::Elem, b: Self::Elem) -> Self::Elem
        requires { In (ops self.now) a × In (ops self.now) b }
        ensures value { result ≡ (ops self.now).mul a b }
        ensures inside { In (ops self.now) result };

    fn neg(&self, a: Self::Elem) -> Self::Elem
        requires { In (ops self.now) a }
        ensures value { result ≡ (ops self.now).neg a }
        ensures inside { In (ops self.now) result };

    // The inverse of a; that of zero is zero.
    fn inv(&self, a: Self::Elem) -> Self::Elem
        requires { In (ops self.now) a }
        ensures value { result ≡ (ops self.now).inv a }
        ensures inside { In (ops self.now) result };

    // The sign of a: 0 or 1, and of an element other than zero the opposite of its negative's.
    // It is a number and no kind: the sign law adds up two of them.
    fn sign(&self, a: Self::Elem) -> u8
        requires { In (ops self.now) a }
        ensures { result ≡ (ops self.now).sign a };

    ghost laws: { (f : Self) → Laws (ops f) };
}

// A field that also answers roots.
pub trait RootedField: Field {
    // The element of sign 0 whose product with itself is a; absent exactly when there is none.
    fn root(&self, a: Self::Elem) -> Option<Self::Elem>
        requires { In (Self.Field.ops self.now) a }
        ensures { AnswersRoot (Self.Field.ops self.now) a result };

    // in the field's meaning, each element has a root or is no square
    ghost rooted: { (f : Self) → Rooted (Self.Field.ops f) };
}
