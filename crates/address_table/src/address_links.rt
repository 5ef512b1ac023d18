//! The links of one address, and the order in which a balanced pick asks them.

ghost use Rattle.std.specs.Prelude.{ℕ, ◌≡◌, ◌↔◌, ◌<◌, ◌^◌, Bool, [], None, Some, find, if◌then◌else◌, map, IsTrue, IfOk, OnOk, OnErr, OnSome};
ghost use Rattle.std.specs.List.{position};
ghost use Rattle.std.specs.Option.{option_map};
ghost use Rattle.std.specs.Vec.{vec_len, vec_capacity};
ghost use Rattle.address_table.specs.AddressLinks.{MayAsk, at_first, closed_up, comes_before, is_of, items_of, joined, left, line_of, moved_up, put, put_back, stood, without};

use std::alloc::{AllocError, Global};

/// Where a link stands among those of its address: how many of its deliveries are not decided, and how many of the
/// others were attached before it.
#[doc(hidden)]
#[derive(Clone, Copy, Drop)]
pub struct LinkRank {
    undecided: u64,
    place: usize,
    link: u64,
}

impl LinkRank {
    /// It is asked before the other.
    fn comes_before(&self, other: &LinkRank) -> bool
        ensures { result ≡ comes_before self.now other.now }
    {
        if self.undecided != other.undecided {
            return self.undecided < other.undecided;
        }
        if self.place != other.place {
            return self.place < other.place;
        }
        self.link <= other.link
    }

    /// One that was attached in this place has left.
    fn move_up(&mut self, gone: usize)
        ensures { self.new ≡ moved_up gone self.old }
    {
        if self.place > gone {
            self.place -= 1;
        }
    }
}

/// The links of an address in the order of their attaches, and, where balanced picks are asked for, in the order in which
/// these ask them. Only `of` and `join` take memory.
#[doc(hidden)]
#[derive(Drop)]
pub struct AddressLinks {
    links: Vec<u64>,
    order: Option<Vec<LinkRank>>,
}

impl AddressLinks {
    /// One link, with nothing undecided. They stand in order where that is asked for.
    pub(crate) fn of(alloc: Global, link: u64, is_ordered: bool) -> Result<AddressLinks, AllocError>
        ensures { IfOk result (λ lineup. line_of (Some lineup) ≡ joined is_ordered link ([], Some [])) }
    {
        let mut order = Some(Vec::new(alloc));
        join_order(&mut order, first_standing(link, 0), is_ordered)?;
        Ok(AddressLinks {
            links: vec![in alloc; link]?,
            order,
        })
    }

    /// The link comes last, with nothing undecided. They stand in order as long as each that came asked for it. Where memory
    /// is refused, nothing changes.
    pub(crate) fn join(&mut self, link: u64, is_ordered: bool) -> Result<(), AllocError>
        ensures joined { OnOk result (line_of (Some self.new) ≡ joined is_ordered link (line_of (Some self.old))) }
        ensures unchanged { OnErr result (line_of (Some self.new) ≡ line_of (Some self.old)) }
    {
        let standing = first_standing(link, self.links.len());
        self.links.reserve(1)?;
        join_order(&mut self.order, standing, is_ordered)?;
        // There is room for it.
        self.links.push(link).unwrap();
        Ok(())
    }

    /// The link is no more among them.
    pub(crate) fn leave(&mut self, link: u64)
        ensures { line_of (Some self.new) ≡ left link (line_of (Some self.old)) }
    {
        self.links.retain(|other| *other != link);
        if let Some(standings) = &mut self.order {
            leave_order(standings, link);
        }
    }

    /// So many deliveries of the link are undecided; it moves to its place among the others. Without the link nothing
    /// changes.
    pub(crate) fn stand(&mut self, link: u64, undecided: u64)
        ensures { line_of (Some self.new) ≡ stood link undecided (line_of (Some self.old)) }
    {
        if let Some(standings) = &mut self.order {
            move_in_order(standings, link, undecided);
        }
    }

    /// There are no links.
    pub(crate) fn is_empty(&self) -> bool
        ensures { IsTrue result ↔ (self.now.links.items ≡ []) }
    {
        self.links.is_empty()
    }

    /// The links in the order of their attaches, lent.
    pub(crate) fn links(&self) -> &[u64]
        ensures { result.now ≡ self.now.links.items }
    {
        self.links.as_slice()
    }

    /// The links in the order in which a balanced pick asks them, lent, if they stand in order.
    pub(crate) fn order(&self) -> Option<&[LinkRank]>
        ensures { option_map (λ standings. standings.now) result ≡ (line_of (Some self.now)).1 }
    {
        match &self.order {
            Some(standings) => Some(standings.as_slice()),
            None => None,
        }
    }
}

/// The first link in the order that passes the test. No link behind it is asked.
pub(crate) fn first_of<F: Fn(u64) -> bool>(order: &[LinkRank], eligible: F) -> Option<u64>
where
    F: Drop,
    requires { MayAsk (F.pre eligible) (F.post eligible) order.now }
    ensures { (test : ℕ → Bool) → ((link : ℕ) (answer : Bool) → link < 2 ^ 64 → F.post eligible link answer → answer ≡ test link)
        → result ≡ option_map (λ one. one.link) (find (λ one. test one.link) order.now) }
{
    for standing in order {
        if eligible(standing.link) {
            return Some(standing.link);
        }
    }
    None
}

/// A link that comes to this place, with nothing undecided.
fn first_standing(link: u64, place: usize) -> LinkRank
    ensures { result ≡ at_first link place }
{
    LinkRank {
        undecided: 0,
        place,
        link,
    }
}

/// One comes to its place among those in order, where there is an order and it is asked for; elsewhere there is none. Where
/// memory is refused, nothing changes.
fn join_order(
    order: &mut Option<Vec<LinkRank>>,
    standing: LinkRank,
    is_ordered: bool,
) -> Result<(), AllocError>
    ensures joined { OnOk result (items_of order.new ≡ option_map (put standing) (if is_ordered then items_of order.old else None)) }
    ensures unchanged { OnErr result (items_of order.new ≡ items_of order.old) }
{
    match order {
        Some(standings) if is_ordered => {
            standings.reserve(1)?;
            put_in(standings, standing);
        }
        _ => *order = None,
    }
    Ok(())
}

/// The link is no more among those in order.
fn leave_order(order: &mut Vec<LinkRank>, link: u64)
    ensures { order.new.items ≡ closed_up (find (is_of link) order.old.items) (without link order.old.items) }
{
    if let Some(gone) = take_out(order, link) {
        close_up(order, gone.place);
    }
}

/// The link comes to its place among those in order, with so many deliveries undecided.
fn move_in_order(order: &mut Vec<LinkRank>, link: u64, undecided: u64)
    ensures { order.new.items ≡ put_back undecided (find (is_of link) order.old.items) (without link order.old.items) }
{
    if let Some(standing) = take_out(order, link) {
        put_in(
            order,
            LinkRank {
                undecided,
                place: standing.place,
                link: standing.link,
            },
        );
    }
}

/// The standing comes to its place among those in order.
#[tactic(auto, using(crate::proofs::Places::put_there))]
fn put_in(order: &mut Vec<LinkRank>, standing: LinkRank)
    requires { vec_len order.old < vec_capacity order.old }
    ensures { order.new.items ≡ put standing order.old.items }
{
    let place = place_for(order.as_slice(), &standing).unwrap_or(order.len());
    // There is room for it.
    order.insert(place, standing).unwrap();
}

/// The place of the first that the standing comes before.
fn place_for(order: &[LinkRank], standing: &LinkRank) -> Option<usize>
    ensures { result ≡ position (comes_before standing.now) order.now }
{
    order.iter().position(|other| standing.comes_before(other))
}

/// The standing of the link, which is no more among them.
#[tactic(auto, using(crate::proofs::Places::found_there, crate::proofs::Places::without_there, crate::proofs::Places::found_nowhere, crate::proofs::Places::without_nowhere))]
fn take_out(order: &mut Vec<LinkRank>, link: u64) -> Option<LinkRank>
    ensures taken { result ≡ find (is_of link) order.old.items }
    ensures others { order.new.items ≡ without link order.old.items }
    ensures room { OnSome result (vec_len order.new < vec_capacity order.new) }
{
    let place = place_of(order.as_slice(), link)?;
    Some(order.remove(place))
}

/// The place of the link's standing.
fn place_of(order: &[LinkRank], link: u64) -> Option<usize>
    ensures { result ≡ position (is_of link) order.now }
{
    order.iter().position(|standing| standing.link == link)
}

/// Those that were attached after one that has left move up.
fn close_up(order: &mut Vec<LinkRank>, gone: usize)
    ensures { order.new.items ≡ map (moved_up gone) order.old.items }
{
    for standing in order.iter_mut() {
        standing.move_up(gone);
    }
}
