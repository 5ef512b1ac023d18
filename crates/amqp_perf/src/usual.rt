//! Performatives in their usual form, read in one go.

ghost use Rattle.std.specs.Prelude.{◌≡◌, ◌<◌, ◌-◌, IfSome, Ok, Some, option_map, true, []};
ghost use Rattle.std.specs.Option.{option_copied};
ghost use Rattle.amqp_perf.specs.declared.table.FieldType.TheVariants as types;
ghost use Rattle.amqp_perf.specs.Tables.{mandatory, optional, table_of};
ghost use Rattle.amqp_perf.specs.Nested.{state_in};
ghost use Rattle.amqp_perf.specs.NestedViews.{state_view};
ghost use Rattle.amqp_perf.specs.Meaning.{disposition_of, transfer_of, flow_of};
ghost use Rattle.amqp_perf.specs.declared.descriptor.PerformativeKind.TheVariants as kinds;
ghost use Rattle.amqp_perf.specs.View.{view, disposition_fields, transfer_fields};
ghost use Rattle.amqp_perf.specs.Reading.{performative_at};
ghost use Rattle.amqp_perf.specs.Usual.{IsItem, IsTaken, AreTaken, IsUsual, IsUsualList, usual_left, uint_of, boolean_of, binary_of, number_of, role_said};

use crate::attach::Role;
use crate::descriptor::Outcome;
use crate::disposition::Disposition;
use crate::flow::Flow;
use crate::performative::Performative;
use crate::state::State;
use crate::transfer::Transfer;
use byteorder::{BigEndian, ByteOrder};

/// The fields of a list that are left: how many, and their octets.
#[derive(Clone, Copy, Debug)]
pub(crate) struct Usual<'a> {
    left: u8,
    octets: &'a [u8],
}

/// The number of a null or an uint at the front, none of null, and the octets behind it.
#[tactic(auto, using(crate::proofs::UsualItems::uint_null, crate::proofs::UsualItems::uint_zero, crate::proofs::UsualItems::uint_octet, crate::proofs::UsualItems::uint_four))]
#[inline(always)]
fn uint_item(octets: &[u8]) -> Option<(Option<u32>, &[u8])>
    ensures { IfSome result (λ x. IsItem (optional types.Uint) uint_of octets.now x.0 x.1.now) }
{
    let (first, data) = octets.split_first()?;
    match *first {
        0x40 => Some((None, data)),
        0x43 => Some((Some(0), data)),
        0x52 => {
            let (number, rest) = data.split_first()?;
            Some((Some(u32::from(*number)), rest))
        }
        0x70 => {
            if data.len() < 4 {
                return None;
            }
            let (number, rest) = data.split_at(4);
            Some((Some(BigEndian::read_u32(number)), rest))
        }
        _ => None,
    }
}

/// The boolean of a null or a boolean at the front, none of null, and the octets behind it.
#[tactic(auto, using(crate::proofs::UsualItems::boolean_null, crate::proofs::UsualItems::boolean_true, crate::proofs::UsualItems::boolean_false))]
#[inline(always)]
fn boolean_item(octets: &[u8]) -> Option<(Option<bool>, &[u8])>
    ensures { IfSome result (λ x. IsItem (optional types.Boolean) boolean_of octets.now x.0 x.1.now) }
{
    let (first, data) = octets.split_first()?;
    match *first {
        0x40 => Some((None, data)),
        0x41 => Some((Some(true), data)),
        0x42 => Some((Some(false), data)),
        _ => None,
    }
}

/// A null or a short binary at the front, none of null, and the octets behind it.
#[tactic(auto, using(crate::proofs::UsualItems::binary_null, crate::proofs::UsualItems::binary_some))]
#[inline(always)]
fn binary_item(octets: &[u8]) -> Option<(Option<&[u8]>, &[u8])>
    ensures { IfSome result (λ x. IsItem (optional types.Binary) binary_of octets.now (option_copied x.0) x.1.now) }
{
    let (first, data) = octets.split_first()?;
    match *first {
        0x40 => Some((None, data)),
        0xA0 => {
            let (size, data) = data.split_first()?;
            let size = usize::from(*size);
            if data.len() < size {
                return None;
            }
            let (own, rest) = data.split_at(size);
            Some((Some(own), rest))
        }
        _ => None,
    }
}

/// A state without fields at the front, and the octets behind it.
#[tactic(auto, using(crate::proofs::UsualItems::state_some))]
#[inline(always)]
fn bare_state(octets: &[u8]) -> Option<(State<'_>, &[u8])>
    ensures { IfSome result (λ x. IsItem (optional types.State) state_in octets.now (Some (state_view x.0)) x.1.now) }
{
    if octets.len() < 4 || octets[0] != 0x00 || octets[1] != 0x53 || octets[3] != 0x45 {
        return None;
    }
    let (raw, rest) = octets.split_at(4);
    let outcome = Outcome::of_code(u64::from(octets[2]));
    Some((State { raw, outcome }, rest))
}

/// The state that says that the delivery failed, as this router writes it, at the front, and the octets behind it.
#[tactic(auto, using(crate::proofs::UsualItems::failed_some))]
#[inline(always)]
fn failed_state(octets: &[u8]) -> Option<(State<'_>, &[u8])>
    ensures { IfSome result (λ x. IsItem (optional types.State) state_in octets.now (Some (state_view x.0)) x.1.now) }
{
    if octets.len() < 7 || octets[0] != 0x00 || octets[1] != 0x53 || octets[2] != 0x27 {
        return None;
    }
    if octets[3] != 0xC0 || octets[4] != 0x02 || octets[5] != 0x01 || octets[6] != 0x41 {
        return None;
    }
    let (raw, rest) = octets.split_at(7);
    let outcome = Some(Outcome::Modified);
    Some((State { raw, outcome }, rest))
}

/// A null or a state in one of these two forms at the front, none of null, and the octets behind it.
#[tactic(auto, using(crate::proofs::UsualItems::state_null))]
#[inline(always)]
fn state_item(octets: &[u8]) -> Option<(Option<State<'_>>, &[u8])>
    ensures { IfSome result (λ x. IsItem (optional types.State) state_in octets.now (option_map state_view x.0) x.1.now) }
{
    let (first, data) = octets.split_first()?;
    if *first == 0x40 {
        return Some((None, data));
    }
    let (state, rest) = match bare_state(octets) {
        Some(read) => read,
        None => failed_state(octets)?,
    };
    Some((Some(state), rest))
}

impl<'a> Usual<'a> {
    /// The fields behind one that was taken.
    #[inline(always)]
    fn behind(&self, octets: &'a [u8]) -> Usual<'a>
        requires { 0 < self.now.left }
        ensures left { result.left ≡ self.now.left - 1 }
        ensures octets { result.octets.now ≡ octets.entry.now }
    {
        Usual {
            left: self.left - 1,
            octets,
        }
    }

    #[tactic(auto, using(crate::proofs::UsualFields::step, crate::proofs::UsualFields::at_end))]
    #[inline(always)]
    pub(crate) fn uint(&mut self) -> Option<Option<u32>>
        ensures { IfSome result (λ x. IsTaken (optional types.Uint) uint_of self.old self.new x) }
    {
        if self.left == 0 {
            return Some(None);
        }
        let (number, octets) = uint_item(self.octets)?;
        *self = self.behind(octets);
        Some(number)
    }

    #[tactic(auto, using(crate::proofs::UsualFields::step, crate::proofs::UsualFields::at_end))]
    #[inline(always)]
    pub(crate) fn boolean(&mut self) -> Option<Option<bool>>
        ensures { IfSome result (λ x. IsTaken (optional types.Boolean) boolean_of self.old self.new x) }
    {
        if self.left == 0 {
            return Some(None);
        }
        let (value, octets) = boolean_item(self.octets)?;
        *self = self.behind(octets);
        Some(value)
    }

    #[tactic(auto, using(crate::proofs::UsualFields::step, crate::proofs::UsualFields::at_end))]
    #[inline(always)]
    pub(crate) fn binary(&mut self) -> Option<Option<&'a [u8]>>
        ensures { IfSome result (λ x. IsTaken (optional types.Binary) binary_of self.old self.new (option_copied x)) }
    {
        if self.left == 0 {
            return Some(None);
        }
        let (value, octets) = binary_item(self.octets)?;
        *self = self.behind(octets);
        Some(value)
    }

    #[tactic(auto, using(crate::proofs::UsualFields::step, crate::proofs::UsualFields::at_end))]
    #[inline(always)]
    pub(crate) fn state(&mut self) -> Option<Option<State<'a>>>
        ensures { IfSome result (λ x. IsTaken (optional types.State) state_in self.old self.new (option_map state_view x)) }
    {
        if self.left == 0 {
            return Some(None);
        }
        let (value, octets) = state_item(self.octets)?;
        *self = self.behind(octets);
        Some(value)
    }

    /// An uint that has to be there.
    #[tactic(auto, using(crate::proofs::UsualFields::must_number))]
    #[inline(always)]
    pub(crate) fn number(&mut self) -> Option<u32>
        ensures { IfSome result (λ x. IsTaken (mandatory types.Uint) number_of self.old self.new x) }
    {
        self.uint()?
    }

    /// A role that has to be there.
    #[tactic(auto, using(crate::proofs::UsualFields::must_role))]
    #[inline(always)]
    pub(crate) fn role(&mut self) -> Option<Role>
        ensures { IfSome result (λ x. IsTaken (mandatory types.Boolean) role_said self.old self.new x) }
    {
        match self.boolean()? {
            Some(is_receiver) => Some(Role::of(is_receiver)),
            None => None,
        }
    }

    /// A boolean where anything may stand.
    #[tactic(auto, using(crate::proofs::UsualFields::any_taken))]
    #[inline(always)]
    pub(crate) fn any_boolean(&mut self) -> Option<Option<bool>>
        ensures { IfSome result (λ x. IsTaken (optional types.Any) boolean_of self.old self.new x) }
    {
        self.boolean()
    }

    /// An uint where anything may stand.
    #[tactic(auto, using(crate::proofs::UsualFields::any_taken))]
    #[inline(always)]
    pub(crate) fn any_uint(&mut self) -> Option<Option<u32>>
        ensures { IfSome result (λ x. IsTaken (optional types.Any) uint_of self.old self.new x) }
    {
        self.uint()
    }

    /// Nothing is left.
    #[inline(always)]
    fn is_done(&self) -> bool
        ensures { result ≡ true → (self.now.left ≡ 0) × (self.now.octets.now ≡ []) }
    {
        self.left == 0 && self.octets.is_empty()
    }
}

/// The code, the fields and what is behind a list at the front that a number of one octet describes, where its size and
/// its count have one octet each.
#[tactic(auto, using(crate::proofs::UsualFields::usual_front))]
#[inline(always)]
fn usual_list(octets: &[u8]) -> Option<(u8, Usual<'_>, &[u8])>
    ensures { IfSome result (λ x. IsUsualList octets.now x.0 x.1 x.2.now) }
{
    if octets.len() < 6 || octets[0] != 0x00 || octets[1] != 0x53 || octets[3] != 0xC0 {
        return None;
    }
    let size = usize::from(octets[4]);
    let left = octets[5];
    let behind = &octets[6..];
    if usize::from(left) >= size || behind.len() < size - 1 {
        return None;
    }
    let (own, rest) = behind.split_at(size - 1);
    Some((octets[2], Usual { left, octets: own }, rest))
}

impl<'a> Disposition<'a> {
    /// From the fields of a disposition in its usual form.
    #[inline(always)]
    fn of_usual(fields: &mut Usual<'a>) -> Option<Disposition<'a>>
        ensures { IfSome result (λ x. AreTaken (table_of kinds.Disposition) fields.old fields.new × (disposition_fields x ≡ disposition_of (usual_left fields.old))) }
    {
        let role = fields.role()?;
        let first = fields.number()?;
        let last = fields.uint()?;
        let settled = fields.boolean()?;
        let state = fields.state()?;
        fields.any_boolean()?;
        Some(Disposition {
            role,
            first,
            last,
            settled,
            state,
        })
    }
}

impl<'a> Transfer<'a> {
    /// From the fields of a transfer in its usual form.
    #[inline(always)]
    fn of_usual(fields: &mut Usual<'a>) -> Option<Transfer<'a>>
        ensures { IfSome result (λ x. AreTaken (table_of kinds.Transfer) fields.old fields.new × (transfer_fields x ≡ transfer_of (usual_left fields.old))) }
    {
        let handle = fields.number()?;
        let delivery_id = fields.uint()?;
        let delivery_tag = fields.binary()?;
        let message_format = fields.uint()?;
        let settled = fields.boolean()?;
        let more = fields.boolean()?;
        fields.any_boolean()?;
        fields.any_boolean()?;
        let resume = fields.boolean()?;
        let aborted = fields.boolean()?;
        fields.any_boolean()?;
        Some(Transfer {
            handle,
            delivery_id,
            delivery_tag,
            message_format,
            settled,
            more,
            resume,
            aborted,
        })
    }
}

impl Flow {
    /// From the fields of a flow in its usual form.
    #[inline(always)]
    fn of_usual(fields: &mut Usual) -> Option<Flow>
        ensures { IfSome result (λ x. AreTaken (table_of kinds.Flow) fields.old fields.new × (x ≡ flow_of (usual_left fields.old))) }
    {
        let next_incoming_id = fields.uint()?;
        let incoming_window = fields.number()?;
        let next_outgoing_id = fields.number()?;
        let outgoing_window = fields.number()?;
        let handle = fields.uint()?;
        let delivery_count = fields.uint()?;
        let link_credit = fields.uint()?;
        fields.any_uint()?;
        let drain = fields.boolean()?;
        let echo = fields.boolean()?;
        fields.any_boolean()?;
        Some(Flow {
            next_incoming_id,
            incoming_window,
            next_outgoing_id,
            outgoing_window,
            handle,
            delivery_count,
            link_credit,
            drain,
            echo,
        })
    }
}

/// A transfer, a disposition or a flow from its fields, by the code in front of them.
#[tactic(auto, using(crate::proofs::UsualTables::flow_usual, crate::proofs::UsualTables::transfer_usual, crate::proofs::UsualTables::disposition_usual))]
#[inline(always)]
fn of_fields<'a>(code: u8, fields: &mut Usual<'a>) -> Option<Performative<'a>>
    ensures { IfSome result (λ x. IsUsual code fields.old fields.new (view x)) }
{
    match code {
        0x13 => Some(Performative::Flow(Flow::of_usual(fields)?)),
        0x14 => Some(Performative::Transfer(Transfer::of_usual(fields)?)),
        0x15 => Some(Performative::Disposition(Disposition::of_usual(fields)?)),
        _ => None,
    }
}

/// A transfer, a disposition or a flow in its usual form at the front, and what is behind it.
pub(crate) fn read_usual(octets: &[u8]) -> Option<(Performative<'_>, &[u8])>
    ensures { IfSome result (λ x. performative_at octets.now ≡ Ok (view x.0, x.1.now)) }
{
    let (code, list, rest) = usual_list(octets)?;
    let mut fields = list;
    let performative = of_fields(code, &mut fields)?;
    if fields.is_done() {
        Some((performative, rest))
    } else {
        None
    }
}
