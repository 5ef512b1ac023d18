//! Passing over values: the offset behind each, where it is one.
//!
//! A reader is given the offset of its place and that of the end of the payload or of the container that it reads in.
//! `levels` is how many values may still lie in one another from there.

ghost use Rattle.std.specs.Prelude.{◌≡◌, ◌<◌, ◌≤◌, IfSome, None, Some, length};
ghost use Rattle.amqp_cuts.specs.Passing.{past_boolean, past_text, past_items, past_nested, past_array, past_elements, past_described, past_data, constructor_in, tagged_in, past_value, past_item};

use crate::cuts::Cuts;
use crate::layout::{ElementForm, Layout, is_odd};
use crate::octets::{counted, octet, pass, sized};
use crate::text::is_text;
use amqp_types::{Kind, SizeWidth, Text};
use flow_counts::MAX_DEPTH;

/// The offset behind the octet of a boolean.
#[tactic(auto, unfolding(crate::specs::Passing::past_boolean))]
fn pass_boolean<C: Cuts>(payload: &C, at: usize, to: usize) -> Option<usize>
    requires room { to ≤ length (C.octets payload.now) }
    ensures exact { result ≡ past_boolean (C.octets payload.now) at to }
    ensures within { IfSome result (λ next. (at ≤ next) × (next ≤ to)) }
{
    let octet = octet(payload, at, to)?;
    if octet > 1 {
        return None;
    }
    Some(at + 1)
}

/// The offset behind a binary, a string or a symbol.
#[tactic(auto, unfolding(crate::specs::Passing::past_text))]
fn pass_text<C: Cuts>(
    payload: &C,
    text: Text,
    width: SizeWidth,
    at: usize,
    to: usize,
) -> Option<usize>
    requires order { at ≤ to }
    requires room { to ≤ length (C.octets payload.now) }
    ensures exact { result ≡ past_text text width (C.octets payload.now) at to }
    ensures within { IfSome result (λ next. (at ≤ next) × (next ≤ to)) }
{
    let (first, end) = sized(payload, width, at, to)?;
    if !is_text(payload, text, first, end) {
        return None;
    }
    Some(end)
}

/// The offset behind a value.
#[cycle(passing)]
#[tactic(auto, unfolding(crate::specs::Passing::past_value, crate::specs::Passing::past_value_by, crate::specs::Passing::past_laid))]
pub(crate) fn pass_value<C: Cuts>(payload: &C, levels: usize, at: usize, to: usize) -> Option<usize>
    requires levels { levels ≤ MAX_DEPTH }
    requires order { at ≤ to }
    requires room { to ≤ length (C.octets payload.now) }
    ensures exact { result ≡ past_value (C.octets payload.now) levels at to }
    ensures within { IfSome result (λ next. (at ≤ next) × (next ≤ to)) }
{
    if levels == 0 {
        return None;
    }
    let layout = Layout::of(octet(payload, at, to)?)?;
    pass_data(payload, levels, layout, at + 1, to)
}

/// The offset behind an element that lies so.
#[cycle(passing)]
fn pass_element<C: Cuts>(
    payload: &C,
    levels: usize,
    form: ElementForm,
    at: usize,
    to: usize,
) -> Option<usize>
    requires tags { form.tags < levels }
    requires levels { levels ≤ MAX_DEPTH }
    requires order { at ≤ to }
    requires room { to ≤ length (C.octets payload.now) }
    ensures exact { result ≡ past_data (C.octets payload.now) levels form.tags form.layout at to }
    ensures within { IfSome result (λ next. (at ≤ next) × (next ≤ to)) }
{
    pass_data(payload, levels - form.tags, form.layout, at, to)
}

/// The offset behind a value, or behind an element where it is known how it lies.
#[cycle(passing)]
#[tactic(auto, unfolding(crate::specs::Passing::past_item))]
fn pass_item<C: Cuts>(
    payload: &C,
    levels: usize,
    form: Option<ElementForm>,
    at: usize,
    to: usize,
) -> Option<usize>
    requires tags { IfSome form (λ form. form.tags < levels) }
    requires levels { levels ≤ MAX_DEPTH }
    requires order { at ≤ to }
    requires room { to ≤ length (C.octets payload.now) }
    ensures exact { result ≡ past_item (C.octets payload.now) levels form at to }
    ensures within { IfSome result (λ next. (at ≤ next) × (next ≤ to)) }
{
    match form {
        None => pass_value(payload, levels, at, to),
        Some(form) => pass_element(payload, levels, form, at, to),
    }
}

/// The offset behind so many items.
#[cycle(passing)]
fn pass_items<C: Cuts>(
    payload: &C,
    levels: usize,
    form: Option<ElementForm>,
    count: u32,
    at: usize,
    to: usize,
) -> Option<usize>
    requires tags { IfSome form (λ form. form.tags < levels) }
    requires levels { levels ≤ MAX_DEPTH }
    requires order { at ≤ to }
    requires room { to ≤ length (C.octets payload.now) }
    ensures exact { result ≡ past_items (past_item (C.octets payload.now) levels form) count at to }
    ensures within { IfSome result (λ next. (at ≤ next) × (next ≤ to)) }
{
    let mut place = at;
    for _ in 0..count {
        place = pass_item(payload, levels, form, place, to)?;
    }
    Some(place)
}

/// The offset behind the data of a list or a map.
#[cycle(passing)]
#[tactic(auto, unfolding(crate::specs::Passing::past_nested, crate::specs::Passing::all_past))]
fn pass_nested<C: Cuts>(
    payload: &C,
    levels: usize,
    kind: Kind,
    width: SizeWidth,
    at: usize,
    to: usize,
) -> Option<usize>
    requires levels { levels ≤ MAX_DEPTH }
    requires order { at ≤ to }
    requires room { to ≤ length (C.octets payload.now) }
    ensures exact { result ≡ past_nested (past_item (C.octets payload.now) levels None) kind width (C.octets payload.now) at to }
    ensures within { IfSome result (λ next. (at ≤ next) × (next ≤ to)) }
{
    let (count, first, end) = counted(payload, width, at, to)?;
    if is_odd(kind, count) {
        return None;
    }
    let last = pass_items(payload, levels, None, count, first, end)?;
    if last != end {
        return None;
    }
    Some(end)
}

/// How the elements lie that a constructor describes, and the offset behind it.
#[cycle(passing)]
#[tactic(auto, unfolding(crate::specs::Passing::constructor_in, crate::specs::Passing::constructor_by, crate::specs::Passing::past_value))]
fn read_constructor<C: Cuts>(
    payload: &C,
    levels: usize,
    at: usize,
    to: usize,
) -> Option<(ElementForm, usize)>
    requires levels { levels ≤ MAX_DEPTH }
    requires order { at ≤ to }
    requires room { to ≤ length (C.octets payload.now) }
    ensures exact { result ≡ constructor_in (C.octets payload.now) levels at to }
    ensures within { IfSome result (λ x. (at ≤ x.1) × (x.1 ≤ to) × (x.0.tags < levels)) }
{
    if levels == 0 {
        return None;
    }
    let layout = Layout::of(octet(payload, at, to)?)?;
    match layout {
        Layout::Described => read_tagged(payload, levels - 1, at + 1, to),
        _ => Some((ElementForm { tags: 0, layout }, at + 1)),
    }
}

/// The same behind the octet that says that a descriptor follows.
#[cycle(passing)]
#[tactic(auto, unfolding(crate::specs::Passing::tagged_in))]
fn read_tagged<C: Cuts>(
    payload: &C,
    levels: usize,
    at: usize,
    to: usize,
) -> Option<(ElementForm, usize)>
    requires levels { levels < MAX_DEPTH }
    requires order { at ≤ to }
    requires room { to ≤ length (C.octets payload.now) }
    ensures exact { result ≡ tagged_in (past_value (C.octets payload.now) levels) (constructor_in (C.octets payload.now) levels) at to }
    ensures within { IfSome result (λ x. (at ≤ x.1) × (x.1 ≤ to) × (x.0.tags ≤ levels)) }
{
    let described = pass_value(payload, levels, at, to)?;
    let (inner, first) = read_constructor(payload, levels, described, to)?;
    let form = ElementForm {
        tags: inner.tags + 1,
        layout: inner.layout,
    };
    Some((form, first))
}

/// The offset behind so many elements, from their constructor on, where nothing is left behind them.
#[cycle(passing)]
#[tactic(auto, unfolding(crate::specs::Passing::past_elements, crate::specs::Passing::all_past))]
fn pass_elements<C: Cuts>(
    payload: &C,
    levels: usize,
    count: u32,
    at: usize,
    to: usize,
) -> Option<usize>
    requires levels { levels ≤ MAX_DEPTH }
    requires order { at ≤ to }
    requires room { to ≤ length (C.octets payload.now) }
    ensures exact { result ≡ past_elements (constructor_in (C.octets payload.now) levels) (λ form. past_item (C.octets payload.now) levels (Some form)) count at to }
    ensures within { IfSome result (λ next. (at ≤ next) × (next ≤ to)) }
{
    if count == 0 && at == to {
        return Some(to);
    }
    let (form, first) = read_constructor(payload, levels, at, to)?;
    let last = pass_items(payload, levels, Some(form), count, first, to)?;
    if last != to {
        return None;
    }
    Some(to)
}

/// The offset behind the data of an array.
#[cycle(passing)]
#[tactic(auto, unfolding(crate::specs::Passing::past_array))]
fn pass_array<C: Cuts>(
    payload: &C,
    levels: usize,
    width: SizeWidth,
    at: usize,
    to: usize,
) -> Option<usize>
    requires levels { levels ≤ MAX_DEPTH }
    requires order { at ≤ to }
    requires room { to ≤ length (C.octets payload.now) }
    ensures exact { result ≡ past_array (constructor_in (C.octets payload.now) levels) (λ form. past_item (C.octets payload.now) levels (Some form)) width (C.octets payload.now) at to }
    ensures within { IfSome result (λ next. (at ≤ next) × (next ≤ to)) }
{
    let (count, first, end) = counted(payload, width, at, to)?;
    pass_elements(payload, levels, count, first, end)
}

/// The offset behind a descriptor and the value that it describes.
#[cycle(passing)]
#[tactic(auto, unfolding(crate::specs::Passing::past_described))]
fn pass_described<C: Cuts>(payload: &C, levels: usize, at: usize, to: usize) -> Option<usize>
    requires levels { levels ≤ MAX_DEPTH }
    requires order { at ≤ to }
    requires room { to ≤ length (C.octets payload.now) }
    ensures exact { result ≡ past_described (past_value (C.octets payload.now) levels) at to }
    ensures within { IfSome result (λ next. (at ≤ next) × (next ≤ to)) }
{
    let described = pass_value(payload, levels, at, to)?;
    pass_value(payload, levels, described, to)
}

/// The offset behind what is behind the first octet of a value.
#[cycle(passing)]
#[tactic(auto, unfolding(crate::specs::Passing::past_data, crate::specs::Passing::past_data_by, crate::specs::Passing::past_value, crate::specs::Passing::past_item))]
fn pass_data<C: Cuts>(
    payload: &C,
    levels: usize,
    layout: Layout,
    at: usize,
    to: usize,
) -> Option<usize>
    requires some { 0 < levels }
    requires levels { levels ≤ MAX_DEPTH }
    requires order { at ≤ to }
    requires room { to ≤ length (C.octets payload.now) }
    ensures exact { result ≡ past_data (C.octets payload.now) levels 0 layout at to }
    ensures within { IfSome result (λ next. (at ≤ next) × (next ≤ to)) }
{
    match layout {
        Layout::Fixed(width) => pass(width, at, to),
        Layout::Boolean => pass_boolean(payload, at, to),
        Layout::UlongOctet => pass(1, at, to),
        Layout::Ulong => pass(8, at, to),
        Layout::Sized(text, width) => pass_text(payload, text, width, at, to),
        Layout::Nested(kind, width) => pass_nested(payload, levels - 1, kind, width, at, to),
        Layout::Array(width) => pass_array(payload, levels - 1, width, at, to),
        Layout::Described => pass_described(payload, levels - 1, at, to),
    }
}
