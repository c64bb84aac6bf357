// The calls that are made.
ghost use Rattle.std.specs.Prelude.{◌≡◌};
ghost use Rattle.load.specs.Load.{kind_of};

// Document 01's calls, in its order. A later form, which lines' `CallKind` has too, is never made.
#[derive(Clone, Copy)]
pub enum Kind {
    Add,
    Map,
    Link,
    Unlink,
    Sum,
    Top,
    Pick,
    Near,
}

const KINDS: [Kind; 8] = [
    Kind::Add,
    Kind::Map,
    Kind::Link,
    Kind::Unlink,
    Kind::Sum,
    Kind::Top,
    Kind::Pick,
    Kind::Near,
];

pub fn kind_of(draw: u32) -> Kind
    ensures { result ≡ kind_of draw }
{
    KINDS[draw as usize % 8]
}
