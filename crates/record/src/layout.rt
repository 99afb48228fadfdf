ghost use Rattle.std.specs.Prelude.{◌≡◌, ◌+◌, ◌<◌, ◌≤◌, ◌↔◌, length, IsOk, IfOk, IfErr, IsNone, IfSome};
ghost use Rattle.fault.specs.Firsts.{Verdict};
ghost use Rattle.record.specs.Layout.{word, header, stated_length, front, rest, InRange, RecordApplies};
ghost use Rattle.record.specs.Headers.{ReadsHeader, record_number};

use crate::header::Header;
use crate::{MAX_CARRIERS, MAX_ENTRIES, MAX_SIDE};
use fault::kinds::{Field, RecordFault};

/// How many bytes the header takes.
pub const HEADER_LEN: usize = 8;

/// How many bytes an entry takes: its carrier number, and its cell further on.
pub const ENTRY_LEN: usize = 3;

/// The number in the two bytes at `at`, the low one first.
pub(crate) fn word(bytes: &[u8], at: usize) -> u16
    requires { at + 1 < length bytes.now }
    ensures { result ≡ word bytes.now at }
{
    u16::from_le_bytes([bytes[at], bytes[at + 1]])
}

/// Bytes that are enough for a header.
#[derive(Clone, Copy)]
struct Head<'a> {
    bytes: &'a [u8],
    ghost enough: { 8 ≤ length bytes.now },
}

impl Head<'_> {
    fn new(bytes: &[u8]) -> Option<Head<'_>>
        ensures short { IsNone result ↔ (length bytes.now < 8) }
        ensures same { IfSome result (λ head. head.bytes.now ≡ bytes.now) }
    {
        if bytes.len() < HEADER_LEN {
            return None;
        }
        Some(Head { bytes })
    }

    /// A number of the header as it stands there.
    fn stated(&self, field: Field) -> u16
        ensures { result ≡ header self.now.bytes.now field }
    {
        word(self.bytes, 2 * usize::from(u16::from(field)))
    }

    /// A number of the header, if it is in its range.
    fn number(&self, field: Field) -> Result<u16, RecordFault>
        ensures in_range { IsOk result ↔ InRange self.now.bytes.now field }
        ensures value { IfOk result (λ n. n ≡ header self.now.bytes.now field) }
        ensures fault { IfErr result (λ e. e ≡ RecordFault.Header field) }
    {
        let value = self.stated(field);
        let range = match field {
            Field::Width | Field::Height => 1..=MAX_SIDE as u16,
            Field::Carriers => 1..=MAX_CARRIERS as u16,
            Field::Entries => self.stated(Field::Carriers)..=MAX_ENTRIES as u16,
        };
        if range.contains(&value) {
            Ok(value)
        } else {
            Err(RecordFault::Header(field))
        }
    }

    /// How long the header says that the record is.
    fn record_len(&self) -> usize
        ensures { result ≡ stated_length self.now.bytes.now }
    {
        HEADER_LEN + ENTRY_LEN * usize::from(self.stated(Field::Entries))
    }
}

/// The record at the front of some bytes, as long as its header says, and what follows it. Where
/// the bytes end before that, all of them are the record.
pub fn split_record(bytes: &[u8]) -> (&[u8], &[u8])
    ensures before { result.0.now ≡ front bytes.now }
    ensures after { result.1.now ≡ rest bytes.now }
{
    let end = Head::new(bytes).map_or(bytes.len(), |head| head.record_len().min(bytes.len()));
    bytes.split_at(end)
}

/// The header of a record that is as long as it says, or what is wrong with the record.
impl TryFrom<&[u8]> for Header {
    type Error = RecordFault;

    ghost try_from_gives = { λ bytes r.
        Verdict record_number (RecordApplies bytes.now) (ReadsHeader bytes.now) r };

    fn try_from(bytes: &[u8]) -> Result<Header, RecordFault> {
        let head = Head::new(bytes).ok_or(RecordFault::Short)?;
        let width = head.number(Field::Width)?;
        let height = head.number(Field::Height)?;
        let carriers = head.number(Field::Carriers)?;
        let entries = head.number(Field::Entries)?;
        if bytes.len() != head.record_len() {
            return Err(RecordFault::Length);
        }
        Ok(Header {
            width: width as u8,
            height: height as u8,
            carriers: carriers as u8,
            entries,
        })
    }
}
