//! Two clients of a run.

ghost use Rattle.std.specs.Prelude.{◌≡◌, [], All, IfOk, vec_len};

use crate::gate::{Client, Pace, Post};
use crate::parted::stream_parted;
use crate::script::{ClientScript, stream_of};
use std::alloc::{AllocError, Global};
use std::sync::Arc;

/// What a client says, and how.
#[derive(Clone, Copy)]
pub struct Part {
    pub script: ClientScript,
    pub pace: Pace,
    /// How many octets of its message stand in the first of two transfers, where the script is that of `RELAY_IN_TWO`.
    pub parted: Option<usize>,
}

/// Two clients that know of each other, and have said and taken nothing.
pub fn two_clients(alloc: Global, first: Part, second: Part) -> Result<(Client, Client), AllocError>
    ensures first { IfOk result (λ both. (both.0.at ≡ 0) × (both.0.taken.items ≡ [])) }
    ensures second { IfOk result (λ both. (both.1.at ≡ 0) × (both.1.taken.items ≡ [])) }
{
    let one = Arc::new(alloc, Post::new())?;
    let two = Arc::new(alloc, Post::new())?;
    clients_at(alloc, first, second, &one, &two)
}

/// The same, where these posts are theirs.
pub fn clients_at(
    alloc: Global,
    first: Part,
    second: Part,
    one: &Arc<Post, Global>,
    two: &Arc<Post, Global>,
) -> Result<(Client, Client), AllocError>
    ensures first { IfOk result (λ both. (both.0.at ≡ 0) × (both.0.taken.items ≡ [])) }
    ensures second { IfOk result (λ both. (both.1.at ≡ 0) × (both.1.taken.items ≡ [])) }
{
    let first = new_client(alloc, first, one, two)?;
    let second = new_client(alloc, second, two, one)?;
    Ok((first, second))
}

/// A client with this post, which knows of the one with the other, and has said and taken nothing.
///
/// It borrows the posts: owned here, their drops would be proved on each way out.
fn new_client(
    alloc: Global,
    part: Part,
    mine: &Arc<Post, Global>,
    theirs: &Arc<Post, Global>,
) -> Result<Client, AllocError>
    ensures { IfOk result (λ client. (client.at ≡ 0) × (client.taken.items ≡ [])) }
{
    let stream = match part.parted {
        Some(front) => stream_parted(alloc, front)?,
        None => stream_of(alloc, part.script)?,
    };
    let (mine, theirs) = (Arc::try_clone(mine)?, Arc::try_clone(theirs)?);
    Ok(Client::new(alloc, stream, part.script, part.pace, mine, theirs))
}

/// Such clients as the gates of a run.
pub fn two_gates(alloc: Global, first: Part, second: Part) -> Result<Vec<Client>, AllocError>
    ensures fresh { IfOk result (λ gates. All (λ client. (client.at ≡ 0) × (client.taken.items ≡ [])) gates.items) }
    ensures len { IfOk result (λ gates. vec_len gates ≡ 2) }
{
    let (first, second) = two_clients(alloc, first, second)?;
    let mut gates = Vec::new(alloc);
    gates.push(first)?;
    gates.push(second)?;
    Ok(gates)
}
