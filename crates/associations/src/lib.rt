// A gateway's associations: the calls for one record of a lent list (docs/RULES.md, "Associations"). The rules stand in the crate `association_rules`.
// One function for the three calls would take the client's call as a closure, with the rules of a list over any such call, and is no plainer. Their arguments come one
// by one, as C passes them.
#![tactic(auto)]

ghost use Rattle.std.specs.Prelude.{◌≡◌, length};
ghost use Rattle.association_rules.specs.Associations.{asked_for, list_after_ask, buffer_after_ask, arrived_for, list_after_arrival, gave_up_for, list_after_give_up};

use association_rules::{ListCalled, alternate, check, use_after};
use client::Client;
use reply_checks::ArrivalAnswer;
use timestamp::Timestamp;
use token::Token;

// Ask: a request for one record is written into the buffer for the caller to send.
#[tactic(auto, using(association_rules::proofs::Lists::on_lists), unfolding(association_rules::specs::Associations::asked_for, association_rules::specs::Associations::list_after_ask, association_rules::specs::Associations::buffer_after_ask))]
pub fn ask(
    list: &mut [Client],
    at: usize,
    in_use: usize,
    buffer: &mut [u8],
    version: u8,
    clock: Timestamp,
    token: Token,
    uptime: u64,
) -> ListCalled<()>
    ensures result { result ≡ asked_for list.old at in_use (length buffer.old) version clock token uptime }
    ensures list { list.new ≡ list_after_ask list.old at in_use (length buffer.old) version clock token uptime }
    ensures buffer { buffer.new ≡ buffer_after_ask list.old at in_use buffer.old version clock token uptime }
{
    if let Err(refusal) = check(list, at, in_use) {
        return ListCalled::refused(refusal, in_use);
    }
    let called = list[at].ask(buffer, version, clock, token, uptime);
    list[at] = called.client;
    ListCalled {
        answer: called.answer,
        in_use,
    }
}

// Arrival: a packet for one record has come in at the clock reading T4.
#[tactic(auto, using(association_rules::proofs::Lists::on_lists), unfolding(association_rules::specs::Associations::arrived_for, association_rules::specs::Associations::list_after_arrival))]
pub fn arrival(
    list: &mut [Client],
    at: usize,
    in_use: usize,
    packet: &[u8],
    t4: Timestamp,
) -> ListCalled<ArrivalAnswer>
    ensures result { result ≡ arrived_for list.old at in_use packet.now t4 }
    ensures list { list.new ≡ list_after_arrival list.old at in_use packet.now t4 }
{
    if let Err(refusal) = check(list, at, in_use) {
        return ListCalled::refused(refusal, in_use);
    }
    let alternate = alternate(list, at);
    let called = list[at].arrival(packet, t4, alternate.is_some());
    list[at] = called.client;
    ListCalled {
        answer: called.answer,
        in_use: use_after(called.answer, alternate, at, in_use),
    }
}

// Give up: the request of one record has timed out.
#[tactic(auto, using(association_rules::proofs::Lists::on_lists), unfolding(association_rules::specs::Associations::gave_up_for, association_rules::specs::Associations::list_after_give_up))]
pub fn give_up(list: &mut [Client], at: usize, in_use: usize, uptime: u64) -> ListCalled<()>
    ensures result { result ≡ gave_up_for list.old at in_use uptime }
    ensures list { list.new ≡ list_after_give_up list.old at in_use uptime }
{
    if let Err(refusal) = check(list, at, in_use) {
        return ListCalled::refused(refusal, in_use);
    }
    let called = list[at].give_up(uptime);
    list[at] = called.client;
    ListCalled {
        answer: called.answer,
        in_use,
    }
}
