//! The slots of a listener.

ghost use Rattle.std.specs.Prelude.{◌≡◌, ◌<◌, IfOk, vec_len};

use crate::slot::ConnectionSlot;
use crate::worker_poll::{WorkerPoll, WorkerPolls};
use mio::net::TcpListener;
use std::alloc::{AllocError, Global};
use std::io;
use std::net::{Net, SocketAddr};
use std::sync::{Arc, Mutex, Wait};

/// Listens at an address, and makes a slot for each connection that is to be served. Slot k is of worker k modulo
/// `workers`.
///
/// # Errors
///
/// Where the system refuses a listener, a poll or a waker; or, as `OutOfMemory` without a number of the system's, where
/// memory is refused.
pub fn open_slots<'a, R: Wait + Net>(
    rt: &'a R,
    alloc: Global,
    addr: SocketAddr,
    workers: usize,
    connections: u32,
) -> io::Result<Vec<ConnectionSlot<&'a R>>>
    requires { 0 < workers }
    ensures { IfOk result (λ slots. vec_len slots ≡ connections) }
{
    let listener = TcpListener::bind(rt, addr)?;
    slots_at(rt, alloc, listener, workers, connections)
}

/// The same, at a listener that is there.
///
/// # Errors
///
/// As those of `open_slots`.
pub fn slots_at<'a, R: Wait + Net>(
    rt: &'a R,
    alloc: Global,
    mut listener: TcpListener,
    workers: usize,
    connections: u32,
) -> io::Result<Vec<ConnectionSlot<&'a R>>>
    requires { 0 < workers }
    ensures { IfOk result (λ slots. vec_len slots ≡ connections) }
{
    let polls = polls_at(rt, alloc, &mut listener, workers)?;
    let listener = Arc::new(alloc, Mutex::new(listener))?;
    let slots = slots_of(rt, alloc, &listener, polls, connections)?;
    Ok(slots)
}

/// A poll for each worker.
fn polls_at(
    net: &impl Net,
    alloc: Global,
    listener: &mut TcpListener,
    workers: usize,
) -> io::Result<Vec<Arc<WorkerPoll, Global>>>
    ensures { IfOk result (λ polls. vec_len polls ≡ workers) }
{
    let mut polls = Vec::new(alloc);
    for worker in 0..workers {
        let poll = WorkerPoll::new(net, alloc, worker, listener)?;
        polls.push(Arc::new(alloc, poll)?)?;
    }
    Ok(polls)
}

/// So many slots, at the polls in turn.
fn slots_of<'a, R: Wait + Net>(
    rt: &'a R,
    alloc: Global,
    listener: &Arc<Mutex<TcpListener>, Global>,
    polls: Vec<Arc<WorkerPoll, Global>>,
    connections: u32,
) -> Result<Vec<ConnectionSlot<&'a R>>, AllocError>
    requires { 0 < vec_len polls }
    ensures { IfOk result (λ slots. vec_len slots ≡ connections) }
{
    let polls = Arc::new(alloc, WorkerPolls::new(polls))?;
    let mut slots = Vec::new(alloc);
    for number in 0..connections {
        let poll = Arc::try_clone(polls.poll_of(number))?;
        let slot = ConnectionSlot::new(
            rt,
            alloc,
            Arc::try_clone(listener)?,
            Arc::try_clone(&polls)?,
            poll,
        );
        slots.push(slot)?;
    }
    Ok(slots)
}
