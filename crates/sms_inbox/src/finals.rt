//! The messages of which nothing else can become, by the receipts that came so far.

ghost use Rattle.sms_pdu.specs.Frame.{IsFrame};

use crate::arrivals::is_delivery;
use crate::ids::{Ids, answer_key, receipt_key};
use crate::receipt::receipt_of;
use crate::state::is_final;
use sms_pdu::{Body, SmRef, decode, first_frame};
use std::alloc::{AllocError, Global};
use std::collections::HashMap;

/// The messages that are over: of each a receipt told a final state.
#[derive(Drop)]
pub struct Finals {
    alloc: Global,
    ids: Ids,
    /// By the keys of their ids.
    keys: HashMap<String, ()>,
}

impl Finals {
    /// None so far. Ids in receipts are spelled so.
    pub fn new(alloc: Global, ids: Ids) -> Finals {
        Finals {
            alloc,
            ids,
            keys: HashMap::new(alloc),
        }
    }

    /// Hears the receipts among the whole frames at the front of a stream. Where memory is refused some aren't heard.
    pub fn hear(&mut self, stream: &[u8]) -> Result<(), AllocError> {
        let mut left = stream;
        while let Some(length) = first_frame(left) {
            let (frame, after) = left.split_at(length);
            self.hear_frame(frame)?;
            left = after;
        }
        Ok(())
    }

    /// Hears a frame, if it is a deliver_sm that can be read.
    fn hear_frame(&mut self, frame: &[u8]) -> Result<(), AllocError>
        requires { IsFrame frame.now }
    {
        if !is_delivery(frame) {
            return Ok(());
        }
        match decode(self.alloc, frame) {
            Ok(pdu) => {
                let heard = self.hear_body(&pdu.body);
                drop(pdu);
                heard
            }
            Err(_unread) => Ok(()),
        }
    }

    fn hear_body(&mut self, body: &Body) -> Result<(), AllocError> {
        match body {
            Body::Deliver(sm) => self.hear_receipt(&sm.as_ref()),
            _ => Ok(()),
        }
    }

    /// Hears a message, if it is a receipt with a final state.
    fn hear_receipt(&mut self, sm: &SmRef<'_>) -> Result<(), AllocError> {
        let receipt = receipt_of(sm);
        if !is_final(receipt.state) {
            return Ok(());
        }
        match receipt_key(self.alloc, self.ids, receipt.id)? {
            Some(key) => self.add(key),
            None => Ok(()),
        }
    }

    fn add(&mut self, key: String) -> Result<(), AllocError> {
        self.keys.insert(key, ())?;
        Ok(())
    }

    /// Whether the message that was answered by this id is over, or no receipt can be told to be of it.
    pub fn has(&self, id: &[u8]) -> bool {
        match answer_key(self.alloc, self.ids, id) {
            Ok(Some(key)) => self.keys.contains_key(key.as_str()),
            Ok(None) => true,
            Err(_memory) => false,
        }
    }
}
