//! Members of objects, whole numbers and arrays.

ghost use Rattle.std.specs.Prelude.{◌≡◌, ℕ, Bool, List, string_bytes, bytes_eq, option_map, IfOk, IsTrue, ◌≤◌, length, pos};
ghost use Rattle.std.specs.List.{list_any, list_all};
ghost use Rattle.std.specs.Result.{result_map_both};
ghost use Rattle.std.specs.BTreeMap.{keys};
ghost use Rattle.serde_json.specs.View.{view, members_view, items_view};
ghost use Rattle.serde_json.specs.Find.{get, as_array};
ghost use Rattle.rd_style.specs.Limits.{is_between};
ghost use Rattle.rd_scene.specs.Members as spec;
ghost use Rattle.rd_scene.specs.Internal.Gives.{texts};

use crate::fault::Why;
use serde_json::{Map, Value};

fn is_one_of(names: &[&str], name: &str) -> bool
    ensures { result ≡ list_any (bytes_eq name.now) (texts names.now) }
{
    match names {
        [] => false,
        [n, rest @ ..] => name == *n || is_one_of(rest, name),
    }
}

fn all_among(members: &Map<String, Value>, names: &[&str]) -> bool
    ensures { result ≡ list_all (λ k. list_any (bytes_eq (string_bytes k)) (texts names.now)) (keys members.now) }
{
    members.keys().all(|k| is_one_of(names, k.as_str()))
}

/// Has every member one of these names?
#[tactic(auto, using(crate::proofs::Items::items))]
fn are_known(members: &Map<String, Value>, names: &[&str]) -> bool
    ensures { result ≡ spec.are_known (texts names.now) (members_view members.now.entries) }
{
    all_among(members, names)
}

/// No member has another name than these.
pub(crate) fn known(members: &Map<String, Value>, names: &[&str]) -> Result<(), Why>
    ensures { result ≡ (spec.known (texts names.now) (members_view members.now.entries)).first }
{
    if are_known(members, names) {
        Ok(())
    } else {
        Err(Why::Unknown)
    }
}

/// The members of an object.
pub(crate) fn members(v: &Value) -> Result<&Map<String, Value>, Why>
    ensures { result_map_both (λ m. members_view m.now.entries) (λ w. w) result ≡ (spec.members (view v.now)).first }
{
    match v.as_object() {
        Some(members) => Ok(members),
        None => Err(Why::Kind),
    }
}

/// The member of this name, which must be there.
pub(crate) fn needed<'a>(v: &'a Value, name: &str) -> Result<&'a Value, Why>
    ensures { result_map_both (λ x. view x.now) (λ w. w) result ≡ (spec.needed name.now (view v.now)).first }
{
    match v.get(name) {
        Some(member) => Ok(member),
        None => Err(Why::Missing),
    }
}

/// The member of this name, which need not be there.
pub(crate) fn member<'a>(v: &'a Value, name: &str) -> Option<&'a Value>
    ensures { option_map (λ x. view x.now) result ≡ get name.now (view v.now) }
{
    v.get(name)
}

/// A string.
pub(crate) fn string(v: &Value) -> Result<&str, Why>
    ensures { result_map_both (λ w. w.now) (λ w. w) result ≡ (spec.string (view v.now)).first }
{
    match v.as_str() {
        Some(text) => Ok(text),
        None => Err(Why::Kind),
    }
}

/// A whole number of 64 bits.
#[tactic(auto, unfolding(crate::specs::Members::whole_number))]
pub(crate) fn whole_number(v: &Value) -> Result<i64, Why>
    ensures { result ≡ (spec.whole_number (view v.now)).first }
{
    match v.as_i64() {
        Some(z) => Ok(z),
        None => Err(Why::Kind),
    }
}

/// The number, which is from `low` to `high`.
pub(crate) fn within(low: i32, high: i32, z: i64) -> Result<i32, Why>
    ensures value { result ≡ (spec.within low high z).first }
    ensures range { IfOk result (λ z. IsTrue (is_between low z high)) }
{
    if low as i64 <= z && z <= high as i64 {
        Ok(z as i32)
    } else {
        Err(Why::Range)
    }
}

/// A whole number from `low` to `high`.
pub(crate) fn number(low: i32, high: i32, v: &Value) -> Result<i32, Why>
    ensures value { result ≡ (spec.number low high (view v.now)).first }
    ensures range { IfOk result (λ z. IsTrue (is_between low z high)) }
{
    let z = whole_number(v)?;
    within(low, high, z)
}

/// The elements of an array.
pub(crate) fn elements(v: &Value) -> Result<&[Value], Why>
    ensures { result_map_both (λ xs. items_view xs.now) (λ w. w) result ≡ (spec.elements (view v.now)).first }
{
    match v.as_array() {
        Some(list) => Ok(list.as_slice()),
        None => Err(Why::Kind),
    }
}

/// The elements of the array that the member of this name is.
pub(crate) fn elements_at<'a>(v: &'a Value, name: &str) -> Result<&'a [Value], Why>
    ensures { result_map_both (λ xs. items_view xs.now) (λ w. w) result ≡ (spec.elements_at name.now (view v.now)).first }
{
    let list = needed(v, name)?;
    elements(list)
}

/// So many elements are from `low` to `high`.
pub(crate) fn counted(low: usize, high: usize, count: usize) -> Result<(), Why>
    ensures value { result ≡ (spec.counted low high count).first }
    ensures low { IfOk result (λ _. low ≤ count) }
    ensures high { IfOk result (λ _. count ≤ high) }
{
    if low <= count && count <= high {
        Ok(())
    } else {
        Err(Why::Count)
    }
}

/// The member of this name, taken out of the value.
fn take_member(v: Value, name: &str) -> Option<Value>
    ensures { option_map view result ≡ get name.now (view v) }
{
    match v {
        Value::Object(mut members) => members.remove(name),
        _ => None,
    }
}

fn take_list(v: Value) -> Option<Vec<Value>>
    ensures { option_map (λ xs. items_view xs.items) result ≡ as_array (view v) }
{
    match v {
        Value::Array(list) => Some(list),
        _ => None,
    }
}

/// The elements of the array that the member of this name is, taken out of the value.
pub(crate) fn take_elements(v: Value, name: &str) -> Result<Vec<Value>, Why>
    ensures { result_map_both (λ xs. items_view xs.items) (λ w. w) result ≡ (spec.elements_at name.now (view v)).first }
{
    let Some(member) = take_member(v, name) else {
        return Err(Why::Missing);
    };
    match take_list(member) {
        Some(list) => Ok(list),
        None => Err(Why::Kind),
    }
}
