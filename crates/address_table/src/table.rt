//! The links of consumers, by their addresses.

ghost use Rattle.std.specs.Prelude.{ℕ, ◌≡◌, ◌<◌, ◌-◌, ◌^◌, Bool, List, [], None, filter, nat_eq, nat_lt, OnOk, OnErr};
ghost use Rattle.std.specs.HashMap.{get_by_text};
ghost use Rattle.indexmap.specs.IndexMap.{get};
ghost use Rattle.flow_counts.specs.Picks as picks;
ghost use Rattle.flow_counts.specs.Picks.{AddressEvent, Attached, Detached, Begun, Decided};
ghost use Rattle.address_table.specs.Picking.{rank_of, ranks_below, pick_of};
ghost use Rattle.address_table.specs.AddressLinks.{AreSameLines, ChangesAt, IsLine, emptied, joined, left, line_of, stood};

use crate::address_links::{AddressLinks, first_of};
use crate::consumer::Consumer;
use capture_form::Distribution;
use indexmap::IndexMap;
use std::alloc::{AllocError, Global};

/// The links of consumers that are attached. A link is named by the record number of the attach that was written on it.
/// Only `attach` takes memory. What happens to a link of an address whose links stand in order takes time linear in these at
/// most; what begins and is decided on another one takes the time of a look-up.
#[derive(Drop)]
pub struct Table {
    alloc: Global,
    links: IndexMap<u64, Consumer>,
    /// The links of each address.
    addresses: IndexMap<String, AddressLinks>,
    ghost in_line: { (address : List ℕ) → IsLine (get nat_eq links) address (line_of (get_by_text addresses address)) },
}

impl Table {
    ghost use Rattle.address_table.specs.Links.{consumer_of, undecided_on, consumers_at, IsCount, CountsOneMore, IsSame};

    /// No links.
    pub fn new(alloc: Global) -> Table
        ensures { IsCount result [] }
    {
        Table {
            alloc,
            links: IndexMap::new(alloc),
            addresses: IndexMap::new(alloc),
        }
    }

    /// The link is attached to the address, by whose distribution links are to be picked: a balanced pick is fast if each of
    /// its links was attached so, and other picks need no order. One that is attached already stays as it is. Where memory is
    /// refused, nothing changes.
    pub fn attach(
        &mut self,
        address: &str,
        link: u64,
        pre_settled: bool,
        distribution: Distribution,
    ) -> Result<(), AllocError>
        ensures counted { OnOk result (CountsOneMore self.old self.new (Attached link address.now pre_settled)) }
        ensures unchanged { OnErr result (IsSame self.old self.new) }
    {
        if self.links.contains_key(&link) {
            return Ok(());
        }
        let consumer = Consumer::new(self.alloc, address, pre_settled)?;
        self.links.reserve(1)?;
        let is_ordered = distribution == Distribution::Balanced;
        join(self.alloc, &mut self.addresses, address, link, is_ordered)?;
        // The room is reserved.
        let _ = self.links.insert(link, consumer).unwrap();
        Ok(())
    }

    /// The link is detached. Without it nothing changes.
    pub fn detach(&mut self, link: u64)
        ensures { CountsOneMore self.old self.new (Detached link) }
    {
        if let Some(consumer) = self.links.swap_remove(&link) {
            leave(&mut self.addresses, consumer.address(), link);
        }
    }

    /// The links that are attached to the address, in the order of their attaches, lent.
    pub fn consumers(&self, address: &str) -> &[u64]
        ensures value { result.now ≡ consumers_at self.now address.now }
        ensures count { (past : List AddressEvent) → IsCount self.now past → result.now ≡ picks.consumers address.now past }
    {
        match self.addresses.get(address) {
            Some(lineup) => lineup.links(),
            None => &[],
        }
    }

    /// The link that a delivery of the address goes to, of those that pass the test: for a closest address the one whose
    /// last delivery began first, where one without a delivery comes before all; for a balanced address the one with the
    /// fewest deliveries that are not decided; of equal ones the one that was attached first. `None` where none passes,
    /// and for a multicast address. It takes no memory. Of a closest address each link is tested; of a balanced one, if its
    /// links were attached so, they are tested in that order, and none behind the first that passes.
    pub fn pick<F: Fn(u64) -> bool>(
        &self,
        address: &str,
        distribution: Distribution,
        eligible: F,
    ) -> Option<u64>
    where
        F: Drop,
        requires { F.IsAlwaysCallable eligible }
        ensures { (test : ℕ → Bool) → ((link : ℕ) (answer : Bool) → link < 2 ^ 64 → F.post eligible link answer → answer ≡ test link)
            → (past : List AddressEvent) → IsCount self.now past → result ≡ pick_of distribution test address.now past }
    {
        match distribution {
            Distribution::Multicast => None,
            Distribution::Balanced => self.first_in_order(address, eligible),
            Distribution::Closest => {
                self.first_of_least(Distribution::Closest, self.consumers(address), eligible)
            }
        }
    }

    /// Of the links of the address that pass the test the one with the fewest undecided deliveries; of equal ones the one
    /// that was attached first. No link behind it in that order is asked, where the links stand in order.
    fn first_in_order<F: Fn(u64) -> bool>(&self, address: &str, eligible: F) -> Option<u64>
    where
        F: Drop,
        requires { F.IsAlwaysCallable eligible }
        ensures { (test : ℕ → Bool) → ((link : ℕ) (answer : Bool) → link < 2 ^ 64 → F.post eligible link answer → answer ≡ test link)
            → result ≡ picks.best (λ one other. nat_lt (undecided_on self.now one) (undecided_on self.now other)) (filter test (consumers_at self.now address.now)) }
    {
        let lineup = self.addresses.get(address)?;
        match lineup.order() {
            Some(order) => first_of(order, eligible),
            None => self.first_of_least(Distribution::Balanced, lineup.links(), eligible),
        }
    }

    /// Of the links that pass the test the one of the least rank; of equal ones the first.
    fn first_of_least<F: Fn(u64) -> bool>(
        &self,
        distribution: Distribution,
        links: &[u64],
        eligible: F,
    ) -> Option<u64>
    where
        F: Drop,
        requires { F.IsAlwaysCallable eligible }
        ensures { (test : ℕ → Bool) → ((link : ℕ) (answer : Bool) → link < 2 ^ 64 → F.post eligible link answer → answer ≡ test link)
            → result ≡ picks.best (ranks_below distribution (consumer_of self.now)) (filter test links.now) }
    {
        let mut best: Option<(u128, u64)> = None;
        for &link in links {
            if !eligible(link) {
                continue;
            }
            let rank = self.rank(distribution, link);
            if best.is_none_or(|(least, _)| rank < least) {
                best = Some((rank, link));
            }
        }
        best.map(|(_, link)| link)
    }

    /// How late the link comes for the distribution.
    #[tactic(auto, using(crate::proofs::Best::rank_of_none))]
    fn rank(&self, distribution: Distribution, link: u64) -> u128
        ensures { result ≡ rank_of distribution (consumer_of self.now link) }
    {
        match self.links.get(&link) {
            Some(consumer) => consumer.rank(distribution),
            None => 0,
        }
    }

    /// How many deliveries of the link are not decided; 0 where it is pre-settled or not attached.
    pub fn undecided(&self, link: u64) -> u64
        ensures { result ≡ undecided_on self.now link }
    {
        self.links
            .get(&link)
            .map_or(0, |consumer| consumer.undecided())
    }

    /// A delivery begins on the link with the transfer of this record number. Without the link nothing changes.
    pub fn begun(&mut self, link: u64, number: u64)
        // `undecided` tells.
        requires { undecided_on self.old link < 2 ^ 64 - 1 }
        ensures { CountsOneMore self.old self.new (Begun link number) }
    {
        if let Some(consumer) = self.links.get_mut(&link) {
            consumer.begun(number);
            stand(&mut self.addresses, consumer, link);
        }
    }

    /// A delivery of the link is decided.
    pub fn decided(&mut self, link: u64)
        // `undecided` tells.
        requires { 0 < undecided_on self.old link }
        ensures { CountsOneMore self.old self.new (Decided link) }
    {
        if let Some(consumer) = self.links.get_mut(&link) {
            consumer.decided();
            stand(&mut self.addresses, consumer, link);
        }
    }
}

/// The link comes last among those of the address. Where memory is refused, nothing changes.
fn join(
    alloc: Global,
    addresses: &mut IndexMap<String, AddressLinks>,
    address: &str,
    link: u64,
    is_ordered: bool,
) -> Result<(), AllocError>
    ensures changed { OnOk result (ChangesAt (get_by_text addresses.old) (get_by_text addresses.new) address.now (joined is_ordered link)) }
    ensures unchanged { OnErr result (AreSameLines (get_by_text addresses.old) (get_by_text addresses.new)) }
{
    let Some(lineup) = addresses.get_mut(address) else {
        return found(alloc, addresses, address, link, is_ordered);
    };
    lineup.join(link, is_ordered)?;
    Ok(())
}

/// The link is the first of the address.
fn found(
    alloc: Global,
    addresses: &mut IndexMap<String, AddressLinks>,
    address: &str,
    link: u64,
    is_ordered: bool,
) -> Result<(), AllocError>
    requires { get_by_text addresses.old address.now ≡ None }
    ensures changed { OnOk result (ChangesAt (get_by_text addresses.old) (get_by_text addresses.new) address.now (joined is_ordered link)) }
    ensures unchanged { OnErr result (AreSameLines (get_by_text addresses.old) (get_by_text addresses.new)) }
{
    let lineup = AddressLinks::of(alloc, link, is_ordered)?;
    let address = String::from_str(alloc, address)?;
    addresses.insert(address, lineup)?;
    Ok(())
}

/// The link is no more among those of the address.
fn leave(addresses: &mut IndexMap<String, AddressLinks>, address: &str, link: u64)
    ensures { ChangesAt (get_by_text addresses.old) (get_by_text addresses.new) address.now (λ line. emptied (left link line)) }
{
    if let Some(lineup) = addresses.get_mut(address) {
        lineup.leave(link);
        if lineup.is_empty() {
            addresses.swap_remove(address);
        }
    }
}

/// The link of the consumer comes to its place among those of the address.
fn stand(addresses: &mut IndexMap<String, AddressLinks>, consumer: &Consumer, link: u64)
    ensures { ChangesAt (get_by_text addresses.old) (get_by_text addresses.new) consumer.now.address (stood link consumer.now.undecided) }
{
    if let Some(lineup) = addresses.get_mut(consumer.address()) {
        lineup.stand(link, consumer.undecided());
    }
}
