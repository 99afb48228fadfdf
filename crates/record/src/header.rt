ghost use Rattle.std.specs.Prelude.{◌≤◌};

/// The numbers at the head of a record, each in its range.
#[derive(Clone, Copy, PartialEq, Eq, Debug)]
pub struct Header {
    pub width: u8,
    pub height: u8,
    pub carriers: u8,
    pub entries: u16,
    ghost wide: { (1 ≤ width) × (width ≤ 64) },
    ghost high: { (1 ≤ height) × (height ≤ 64) },
    ghost manned: { (1 ≤ carriers) × (carriers ≤ 16) },
    ghost listed: { (carriers ≤ entries) × (entries ≤ 512) },
}
