//! A run: some clients over one core, whose streams come piece by piece in any order.

ghost use Rattle.std.specs.Prelude.{◌<◌};

use crate::cores::LIMIT;
use crate::exchanged::client::Client;
use address_table::Rules;
use capture_form::{Capture, Distribution, Rule};
use kit_clients::Chance;
use kit_gates::one_rule;
use kit_talks::{Served, stream};
use route_core::Core;
use std::alloc::{AllocError, Global};
use std::cell::RefCell;

/// The lengths of pieces.
const LENGTHS: [usize; 4] = [1, 7, 90, 4096];

/// What came of a run.
#[derive(Drop)]
pub struct Run {
    /// As many records as the core might have.
    pub limit: u64,
    pub capture: Capture,
    pub served: Vec<Served>,
}

/// The run of a seed.
///
/// # Errors
///
/// Where memory is refused.
pub fn run_of_seed(alloc: Global, seed: u64) -> Result<Run, AllocError> {
    let mut chance = Chance::new(seed);
    let (core, limit) = some_core(alloc, &mut chance)?;
    let (served, capture) = run_over(alloc, core, &mut chance);
    Ok(Run {
        limit,
        capture,
        served: served?,
    })
}

/// A core, and as many records as it may have.
fn some_core(alloc: Global, chance: &mut Chance) -> Result<(Core, u64), AllocError> {
    let Ok(rules) = Rules::new(some_rules(alloc, chance)?) else {
        return Err(AllocError);
    };
    let limit = if chance.once_in(8) {
        chance.below(50) as u64
    } else {
        LIMIT
    };
    Ok((Core::new(alloc, &rules, limit)?, limit))
}

/// Rules, or none.
fn some_rules(alloc: Global, chance: &mut Chance) -> Result<Vec<Rule>, AllocError> {
    if chance.once_in(2) {
        one_rule(alloc, Distribution::Multicast, "news")
    } else {
        Ok(Vec::new(alloc))
    }
}

/// Serves clients by a core, and gives its capture.
fn run_over(
    alloc: Global,
    core: Core,
    chance: &mut Chance,
) -> (Result<Vec<Served>, AllocError>, Capture) {
    let core = RefCell::new(core);
    let served = serve(alloc, &core, chance);
    (served, core.into_inner().into_capture())
}

/// Serves some clients in any order, and then each to its end.
fn serve(
    alloc: Global,
    core: &RefCell<Core>,
    chance: &mut Chance,
) -> Result<Vec<Served>, AllocError> {
    let mut clients = Vec::new(alloc);
    // A `?` here would be one more way out on which the drop of the clients is proved.
    let acted = act_all(core, &mut clients, chance);
    acted.and(all_served(alloc, clients))
}

/// What came of each client.
fn all_served(alloc: Global, clients: Vec<Client<'_>>) -> Result<Vec<Served>, AllocError> {
    clients.into_iter().map(Client::served).collect(alloc)
}

/// Makes some clients, which act in any order, and then each comes to its end.
fn act_all<'a>(
    core: &'a RefCell<Core>,
    clients: &mut Vec<Client<'a>>,
    chance: &mut Chance,
) -> Result<(), AllocError> {
    put_clients(core, clients, chance)?;
    act_some(clients, chance)?;
    end_all(clients)
}

/// Puts one to five clients with streams.
fn put_clients<'a>(
    core: &'a RefCell<Core>,
    clients: &mut Vec<Client<'a>>,
    chance: &mut Chance,
) -> Result<(), AllocError> {
    let alloc = *clients.allocator();
    for number in 0..=chance.below(5) {
        let stream = stream(alloc, chance)?;
        let most = LENGTHS[chance.below(LENGTHS.len())];
        clients.push(Client::new(alloc, number as u32, core, stream, most))?;
    }
    Ok(())
}

/// Lets clients act in any order.
fn act_some(clients: &mut [Client<'_>], chance: &mut Chance) -> Result<(), AllocError> {
    for _ in 0..some_acts(chance) {
        let place = chance.below(clients.len() + 1);
        if let Some(client) = clients.get_mut(place) {
            client.act(chance)?;
        }
    }
    Ok(())
}

/// How often something is done by chance before the rest of the streams is sent.
fn some_acts(chance: &mut Chance) -> usize {
    match chance.below(3) {
        0 => 0,
        1 => chance.below(60),
        _ => chance.below(600),
    }
}

/// Lets each send what is left of its stream, and then each end.
fn end_all(clients: &mut [Client<'_>]) -> Result<(), AllocError> {
    for client in clients.iter_mut() {
        client.send_all()?;
    }
    for client in clients.iter_mut() {
        client.finish()?;
    }
    Ok(())
}
