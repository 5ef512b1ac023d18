//! Deliveries of clients that are to be sent on.

use crate::links::Links;
use crate::row::Delivery;
use std::alloc::AllocError;

/// A delivery of a client that no transfer carries, that is not given up, and of which no outcome was told.
#[derive(Clone, Copy, Debug)]
pub(crate) struct ToSend {
    /// The number of its link.
    pub link: usize,
    /// Its last part has come, so that it waits.
    pub is_complete: bool,
}

impl Links {
    /// A delivery of a client begins.
    pub(crate) fn begin_to_send(&mut self, delivery: Delivery) -> Result<(), AllocError> {
        let begun = ToSend {
            link: delivery.link,
            is_complete: false,
        };
        self.to_send.insert(delivery.record, begun)?;
        Ok(())
    }

    /// The delivery that began in this record is complete, and waits if it is still to be sent.
    pub(crate) fn wait(&mut self, record: u64) {
        let Some(to_send) = self.to_send.get_mut(&record) else {
            return;
        };
        to_send.is_complete = true;
        if let Some(row) = self.rows.get_mut(to_send.link) {
            row.waiting = row.waiting.saturating_add(1);
        }
    }

    /// The delivery that began in this record is sent on, told or given up.
    pub(crate) fn stop_waiting(&mut self, record: u64) {
        let Some(to_send) = self.to_send.remove(&record) else {
            return;
        };
        if !to_send.is_complete {
            return;
        }
        if let Some(row) = self.rows.get_mut(to_send.link) {
            row.waiting = row.waiting.saturating_sub(1);
        }
    }
}
