// The fields of a single metadata, and an item of a batch's payload (document 01, 'batch'; crate wire, specs/Read.antt). Each
// is taken off the front of the bytes that are left, and is None where they have no reading.
use crate::message::Message;
use types::txn::TxnId;

fn bytes<'a>(rest: &mut &'a [u8]) -> Option<&'a [u8]> {
    let len = varint(rest)?;
    rest.split_off(..len as usize)
}

// Seven bits to a byte, the lowest first; the last byte is below 128, and not 0 behind another.
fn varint(rest: &mut &[u8]) -> Option<u64> {
    let mut value: u64 = 0;
    for i in 0..10u32 {
        let b = *rest.split_off_first()?;
        let low = u64::from(b % 128);
        let bits = low << (7 * i);
        if bits >> (7 * i) != low {
            return None;
        }
        value |= bits;
        if b < 128 {
            return (i == 0 || 0 < b).then_some(value);
        }
    }
    None
}

fn mark(rest: &mut &[u8]) -> Option<bool> {
    match varint(rest)? {
        0 => Some(false),
        1 => Some(true),
        _ => None,
    }
}

// A field that may be absent: the key that it has, which is its tag times 8 and its wire type, and how its value is read.
fn field<'a, T, F: FnOnce(&mut &'a [u8]) -> Option<T>>(
    rest: &mut &'a [u8],
    key: u8,
    read: F,
) -> Option<Option<T>>
    requires { F.IsAlwaysCallable read }
{
    match rest.strip_prefix(&[key]) {
        Some(value) => {
            *rest = value;
            Some(Some(read(rest)?))
        }
        None => Some(None),
    }
}

// The length of the single metadata, its fields in tag order and nothing else, and the payload, whose size must be there.
pub fn item<'a>(rest: &mut &'a [u8], txn_id: Option<TxnId>) -> Option<Message<'a>> {
    let (len, behind) = rest.split_first_chunk()?;
    *rest = behind;
    let mut fields = rest.split_off(..u32::from_be_bytes(*len) as usize)?;
    let partition_key = field(&mut fields, 18, bytes)?;
    let size = field(&mut fields, 24, varint)??;
    let event_time = field(&mut fields, 40, varint)?;
    let ordering_key = field(&mut fields, 58, bytes)?;
    let null_value = field(&mut fields, 72, mark)?;
    let null_partition_key = field(&mut fields, 80, mark)?;
    if !fields.is_empty() {
        return None;
    }
    Some(Message {
        payload: rest.split_off(..size as usize)?,
        partition_key,
        ordering_key,
        event_time,
        null_value,
        null_partition_key,
        txn_id,
    })
}
