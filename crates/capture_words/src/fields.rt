//! The fields of each performative, by the standard's names. A field that is absent is left out.

use crate::page::Page;
use amqp_perf::{
    Address, Attach, Begin, Detach, Disposition, Flow, Open, Performative, ReceiverSettleMode,
    Role, SenderSettleMode, State, Target, Terminus, Transfer,
};
use capture_view::{ModifiedTold, condition_told, modified_told, outcome_name};
use std::alloc::AllocError;

impl Page {
    /// Appends the name of a performative and its fields.
    pub(crate) fn put_performative(
        &mut self,
        performative: &Performative<'_>,
    ) -> Result<(), AllocError> {
        match performative {
            Performative::Open(open) => self.put_open(open),
            Performative::Begin(begin) => self.put_begin(begin),
            Performative::Attach(attach) => self.put_attach(attach),
            Performative::Flow(flow) => self.put_flow(flow),
            Performative::Transfer(transfer) => self.put_transfer(transfer),
            Performative::Disposition(disposition) => self.put_disposition(disposition),
            Performative::Detach(detach) => self.put_detach(detach),
            Performative::End(error) => self.put_ending("end", *error),
            Performative::Close(error) => self.put_ending("close", *error),
        }
    }

    fn put_open(&mut self, open: &Open<'_>) -> Result<(), AllocError> {
        self.put("open container-id=")?;
        self.put_text(open.container_id)?;
        self.put_uint(" max-frame-size=", open.max_frame_size)?;
        self.put_uint(" channel-max=", open.channel_max.map(u32::from))?;
        self.put_uint(" idle-time-out=", open.idle_time_out)
    }

    fn put_begin(&mut self, begin: &Begin) -> Result<(), AllocError> {
        self.put("begin")?;
        self.put_uint(" remote-channel=", begin.remote_channel.map(u32::from))?;
        self.put_uint(" next-outgoing-id=", Some(begin.next_outgoing_id))?;
        self.put_uint(" incoming-window=", Some(begin.incoming_window))?;
        self.put_uint(" outgoing-window=", Some(begin.outgoing_window))?;
        self.put_uint(" handle-max=", begin.handle_max)
    }

    fn put_attach(&mut self, attach: &Attach<'_>) -> Result<(), AllocError> {
        self.put("attach name=")?;
        self.put_text(attach.name)?;
        self.put_uint(" handle=", Some(attach.handle))?;
        self.put_role(attach.role)?;
        self.put_modes(attach)?;
        self.put_source(attach.source)?;
        self.put_target(attach.target)?;
        self.put_uint(" initial-delivery-count=", attach.initial_delivery_count)?;
        match attach.max_message_size {
            Some(size) => {
                self.put(" max-message-size=")?;
                self.put_number(size)
            }
            None => Ok(()),
        }
    }

    fn put_modes(&mut self, attach: &Attach<'_>) -> Result<(), AllocError> {
        self.put(match attach.snd_settle_mode {
            Some(SenderSettleMode::Unsettled) => " snd-settle-mode=unsettled",
            Some(SenderSettleMode::Settled) => " snd-settle-mode=settled",
            Some(SenderSettleMode::Mixed) => " snd-settle-mode=mixed",
            None => "",
        })?;
        self.put(match attach.rcv_settle_mode {
            Some(ReceiverSettleMode::First) => " rcv-settle-mode=first",
            Some(ReceiverSettleMode::Second) => " rcv-settle-mode=second",
            None => "",
        })
    }

    fn put_source(&mut self, source: Option<Terminus<'_>>) -> Result<(), AllocError> {
        match source {
            Some(terminus) => {
                self.put(" source=")?;
                self.put_terminus(terminus)
            }
            None => Ok(()),
        }
    }

    fn put_target(&mut self, target: Option<Target<'_>>) -> Result<(), AllocError> {
        match target {
            Some(Target::Terminus(terminus)) => {
                self.put(" target=")?;
                self.put_terminus(terminus)
            }
            Some(Target::Coordinator) => self.put(" target=coordinator"),
            None => Ok(()),
        }
    }

    fn put_terminus(&mut self, terminus: Terminus<'_>) -> Result<(), AllocError> {
        self.put("(")?;
        match terminus.address {
            Some(Address::Text(text)) => {
                self.put("address=")?;
                self.put_text(text)?;
            }
            Some(Address::Other(octets)) => {
                self.put("address=octets:")?;
                self.put_octets(octets)?;
            }
            None => {}
        }
        let gap = if terminus.address.is_some() { " " } else { "" };
        match terminus.dynamic {
            Some(true) => {
                self.put(gap)?;
                self.put("dynamic=true")?;
            }
            Some(false) => {
                self.put(gap)?;
                self.put("dynamic=false")?;
            }
            None => {}
        }
        self.put(")")
    }

    fn put_flow(&mut self, flow: &Flow) -> Result<(), AllocError> {
        self.put("flow")?;
        self.put_uint(" next-incoming-id=", flow.next_incoming_id)?;
        self.put_uint(" incoming-window=", Some(flow.incoming_window))?;
        self.put_uint(" next-outgoing-id=", Some(flow.next_outgoing_id))?;
        self.put_uint(" outgoing-window=", Some(flow.outgoing_window))?;
        self.put_uint(" handle=", flow.handle)?;
        self.put_uint(" delivery-count=", flow.delivery_count)?;
        self.put_uint(" link-credit=", flow.link_credit)?;
        self.put_flag(" drain=", flow.drain)?;
        self.put_flag(" echo=", flow.echo)
    }

    fn put_transfer(&mut self, transfer: &Transfer<'_>) -> Result<(), AllocError> {
        self.put("transfer")?;
        self.put_uint(" handle=", Some(transfer.handle))?;
        self.put_uint(" delivery-id=", transfer.delivery_id)?;
        if let Some(tag) = transfer.delivery_tag {
            self.put(" delivery-tag=")?;
            self.put_octets(tag)?;
        }
        self.put_uint(" message-format=", transfer.message_format)?;
        self.put_flag(" settled=", transfer.settled)?;
        self.put_flag(" more=", transfer.more)?;
        self.put_flag(" resume=", transfer.resume)?;
        self.put_flag(" aborted=", transfer.aborted)
    }

    fn put_disposition(&mut self, disposition: &Disposition<'_>) -> Result<(), AllocError> {
        self.put("disposition")?;
        self.put_role(disposition.role)?;
        self.put_uint(" first=", Some(disposition.first))?;
        self.put_uint(" last=", disposition.last)?;
        self.put_flag(" settled=", disposition.settled)?;
        match disposition.state {
            Some(state) => self.put_state(&state),
            None => Ok(()),
        }
    }

    /// Appends a state: an outcome by its name, with the condition of its error, or with what it says of its delivery; any other
    /// state by its octets.
    fn put_state(&mut self, state: &State<'_>) -> Result<(), AllocError> {
        self.put(" state=")?;
        match state.outcome() {
            Some(outcome) => self.put(outcome_name(outcome))?,
            None => {
                self.put("octets:")?;
                self.put_octets(state.raw())?;
            }
        }
        self.put_error(" condition=", condition_told(state))?;
        match modified_told(state) {
            Some(told) => self.put_modified(told),
            None => Ok(()),
        }
    }

    /// Appends what a modified state says of its delivery.
    fn put_modified(&mut self, told: ModifiedTold) -> Result<(), AllocError> {
        self.put(match (told.delivery_failed, told.undeliverable_here) {
            (false, false) => "",
            (true, false) => " delivery-failed",
            (false, true) => " undeliverable-here",
            (true, true) => " delivery-failed undeliverable-here",
        })
    }

    fn put_detach(&mut self, detach: &Detach<'_>) -> Result<(), AllocError> {
        self.put("detach")?;
        self.put_uint(" handle=", Some(detach.handle))?;
        self.put_flag(" closed=", detach.closed)?;
        self.put_error(" error=", detach.error)
    }

    fn put_ending(&mut self, name: &str, error: Option<&str>) -> Result<(), AllocError> {
        self.put(name)?;
        self.put_error(" error=", error)
    }

    fn put_error(&mut self, name: &str, error: Option<&str>) -> Result<(), AllocError> {
        match error {
            Some(condition) => {
                self.put(name)?;
                self.put_text(condition)
            }
            None => Ok(()),
        }
    }

    fn put_role(&mut self, role: Role) -> Result<(), AllocError> {
        self.put(match role {
            Role::Sender => " role=sender",
            Role::Receiver => " role=receiver",
        })
    }

    fn put_uint(&mut self, name: &str, number: Option<u32>) -> Result<(), AllocError> {
        match number {
            Some(number) => {
                self.put(name)?;
                self.put_number(u64::from(number))
            }
            None => Ok(()),
        }
    }

    fn put_flag(&mut self, name: &str, flag: Option<bool>) -> Result<(), AllocError> {
        match flag {
            Some(flag) => {
                self.put(name)?;
                self.put(if flag { "true" } else { "false" })
            }
            None => Ok(()),
        }
    }
}
