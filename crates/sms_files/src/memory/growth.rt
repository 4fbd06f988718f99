//! Lists, texts and maps that grow.

ghost use Rattle.std.specs.Prelude.{◌≡◌, ◌<◌, ◌≤◌, ◌+◌, ◌++◌, ◌∷◌, [], None, Some, decimal, if◌then◌else◌, is_ok, length, string_bytes, string_capacity, string_len, vec_capacity, vec_len, IfOk, IsOk, OnErr, OnOk};
ghost use Rattle.std.specs.Char.{encode_utf8};
ghost use Rattle.std.specs.HashMap.{IsUnchanged, PutsEntry, Updates, get, spare};

use crate::memory::NoMemory;
use itoa::Buffer;
use std::alloc::Global;
use std::collections::HashMap;
use std::hash::Hash;

/// A copy of a text.
pub fn text_of(alloc: Global, text: &str) -> Result<String, NoMemory>
    ensures ok { IfOk result (λ copy. string_bytes copy ≡ text.now) }
{
    match String::from_str(alloc, text) {
        Ok(copy) => Ok(copy),
        Err(_) => Err(NoMemory { refused: () }),
    }
}

/// Appends to a text. Where there is room for it memory isn't refused; where it is the text stays.
pub fn append(text: &mut String, more: &str) -> Result<(), NoMemory>
    ensures bytes { string_bytes text.new ≡ (if is_ok result then string_bytes text.old ++ more.now else string_bytes text.old) }
    ensures succeeds { string_len text.old + length more.now ≤ string_capacity text.old → IsOk result }
{
    match text.push_str(more) {
        Ok(()) => Ok(()),
        Err(_) => Err(NoMemory { refused: () }),
    }
}

/// Appends a character to a text. Where there is room for it memory isn't refused; where it is the text stays.
pub fn append_char(text: &mut String, c: char) -> Result<(), NoMemory>
    ensures bytes { string_bytes text.new ≡ (if is_ok result then string_bytes text.old ++ encode_utf8 c else string_bytes text.old) }
    ensures succeeds { string_len text.old + length (encode_utf8 c) ≤ string_capacity text.old → IsOk result }
    ensures ascii { c < 128 → encode_utf8 c ≡ c ∷ [] }
{
    match text.push(c) {
        Ok(()) => Ok(()),
        Err(_) => Err(NoMemory { refused: () }),
    }
}

/// Appends a label and after it a number, in decimal digits, to a text. Where memory is refused a part of them
/// may stand there.
pub fn append_number(text: &mut String, label: &str, number: u64) -> Result<(), NoMemory>
    ensures { OnOk result (string_bytes text.new ≡ string_bytes text.old ++ label.now ++ decimal number) }
{
    let mut digits = Buffer::new();
    append(text, label)?;
    append(text, digits.format(number))
}

/// Appends a value to a list. Where there is room for it memory isn't refused; where it is the list stays, and
/// the value is dropped.
pub fn push<T: Drop>(list: &mut Vec<T>, value: T) -> Result<(), NoMemory>
    ensures items { list.new.items ≡ (if is_ok result then list.old.items ++ value ∷ [] else list.old.items) }
    ensures len { vec_len list.new ≡ (if is_ok result then vec_len list.old + 1 else vec_len list.old) }
    ensures succeeds { vec_len list.old < vec_capacity list.old → IsOk result }
{
    match list.push(value) {
        Ok(()) => Ok(()),
        Err(refused) => {
            drop(refused);
            Err(NoMemory { refused: () })
        }
    }
}

/// Appends octets to a list. Where there is room for them memory isn't refused; where it is the list stays.
pub fn append_octets(list: &mut Vec<u8>, more: &[u8]) -> Result<(), NoMemory>
    ensures items { list.new.items ≡ (if is_ok result then list.old.items ++ more.now else list.old.items) }
    ensures succeeds { vec_len list.old + length more.now ≤ vec_capacity list.old → IsOk result }
{
    match list.extend_from_slice(more) {
        Ok(()) => Ok(()),
        Err(_) => Err(NoMemory { refused: () }),
    }
}

/// An empty list with room for as many values as there are of these.
pub fn list_for<T, U>(alloc: Global, of: &[U]) -> Result<Vec<T>, NoMemory>
    ensures items { IfOk result (λ list. list.items ≡ []) }
    ensures room { IfOk result (λ list. vec_capacity list ≡ length of.now) }
{
    match Vec::with_capacity(alloc, of.len()) {
        Ok(list) => Ok(list),
        Err(_) => Err(NoMemory { refused: () }),
    }
}

/// Gives a key of a map this value, and answers the one that it had. Only for a new key is memory refused; the
/// map stays then.
pub fn insert<K: Eq + Hash + Drop, V: Drop>(
    map: &mut HashMap<K, V>,
    key: K,
    value: V,
) -> Result<Option<V>, NoMemory>
    ensures old { IfOk result (λ old. old ≡ get K.eq map.old key) }
    ensures updates { OnOk result (Updates K.eq map.old map.new key (Some value)) }
    ensures entries { IfOk result (PutsEntry K.eq map.old map.new key value) }
    ensures unchanged { OnErr result (IsUnchanged map.old map.new) }
    ensures absent { OnErr result (get K.eq map.old key ≡ None) }
    ensures succeeds { 0 < spare map.old → IsOk result }
{
    match map.insert(key, value) {
        Ok(old) => Ok(old),
        Err(refused) => {
            drop(refused);
            Err(NoMemory { refused: () })
        }
    }
}
