// The calls for one record of a list. Every call refuses by 46 before anything else. A refused call returns its number and writes nothing.
ghost use Rattle.std.specs.Prelude.{◌≡◌};
ghost use Rattle.ordered_tests.specs.Tests.{kept_of};
ghost use Rattle.client.specs.Calls.{said_arrival};
ghost use Rattle.association_rules.specs.Associations.{association};
ghost use Rattle.firmware_layouts.specs.Answer.{with_answer};
ghost use Rattle.refusals.specs.Given.{result_number};
ghost use Rattle.firmware.specs.Numbers.{number_of};
ghost use Rattle.firmware_list.specs.Images.{with_record};
ghost use Rattle.firmware_list.specs.Calls.{ask, arrival, give_up, number, list_after, in_use_after, buffer_after, answer_after};

use crate::images::{end, lend};
use client::Client;
use firmware::numbers::narrow;
use firmware_layouts::{ANSWER, write_answer};
use refusals::{Refusal, result_number};
use reply_checks::ArrivalAnswer;
use timestamp::Timestamp;
use token::Token;

// Writes what is told of an arrival, unless the call is refused.
#[tactic(auto, using(firmware::proofs::Calls::kept))]
fn write_told(answer: &mut [u8], told: Result<ArrivalAnswer, Refusal>) -> Result<(), Refusal>
    ensures number { result_number result ≡ number_of (said_arrival told) }
    ensures answer { answer.new ≡ with_answer answer.old (said_arrival told) }
{
    write_answer(answer, told?);
    Ok(())
}

#[tactic(auto, using(crate::proofs::Lent::on_lent))]
fn ask(
    list: &mut [u8],
    at: usize,
    in_use: usize,
    buffer: &mut [u8],
    version: u32,
    clock: u64,
    token: u64,
    uptime: u64,
) -> Result<(), Refusal>
    ensures number { result_number result ≡ number list.old at in_use (ask buffer.old version clock token uptime) }
    ensures list { list.new ≡ list_after list.old at in_use (ask buffer.old version clock token uptime) }
    ensures buffer { buffer.new ≡ buffer_after list.old at in_use (ask buffer.old version clock token uptime) }
{
    let mut records = [Client::fresh(); 8];
    let lent = lend(list, &mut records);
    let called = associations::ask(
        lent,
        at,
        in_use,
        buffer,
        narrow(version),
        Timestamp::from(clock),
        Token(token),
        uptime,
    );
    end(list, at, called.answer, lent)
}

#[tactic(auto, using(crate::proofs::Lent::on_lent), unfolding(crate::specs::Calls::number, crate::specs::Calls::list_after, crate::specs::Calls::in_use_after, crate::specs::Calls::answer_after))]
fn arrival(
    list: &mut [u8],
    at: usize,
    in_use: &mut usize,
    answer: &mut [u8],
    t4: u64,
    packet: &[u8],
) -> Result<(), Refusal>
    ensures number { result_number result ≡ number list.old at in_use.old (arrival answer.old t4 packet.now) }
    ensures list { list.new ≡ list_after list.old at in_use.old (arrival answer.old t4 packet.now) }
    ensures in_use { in_use.new ≡ in_use_after list.old at in_use.old (arrival answer.old t4 packet.now) }
    ensures answer { answer.new ≡ answer_after list.old at in_use.old (arrival answer.old t4 packet.now) }
{
    if answer.len() != ANSWER {
        return Err(Refusal::ImageNotLegal);
    }
    let mut records = [Client::fresh(); 8];
    let lent = lend(list, &mut records);
    let called = associations::arrival(lent, at, *in_use, packet, Timestamp::from(t4));
    // A refusal hands the number in use back as it was.
    *in_use = called.in_use;
    write_told(answer, end(list, at, called.answer, lent))
}

#[tactic(auto, using(crate::proofs::Lent::on_lent))]
fn give_up(list: &mut [u8], at: usize, in_use: usize, uptime: u64) -> Result<(), Refusal>
    ensures number { result_number result ≡ number list.old at in_use (give_up uptime) }
    ensures list { list.new ≡ list_after list.old at in_use (give_up uptime) }
{
    let mut records = [Client::fresh(); 8];
    let lent = lend(list, &mut records);
    let called = associations::give_up(lent, at, in_use, uptime);
    end(list, at, called.answer, lent)
}

// `associations::ask`: the client request of RFC 4330, section 5, to one of the servers.
pub fn pongulvesz_list_ask(
    list: &mut [u8],
    at: usize,
    in_use: usize,
    buffer: &mut [u8],
    version: u32,
    clock: u64,
    token: u64,
    uptime: u64,
) -> u32
    ensures number { result ≡ number list.old at in_use (ask buffer.old version clock token uptime) }
    ensures list { list.new ≡ list_after list.old at in_use (ask buffer.old version clock token uptime) }
    ensures buffer { buffer.new ≡ buffer_after list.old at in_use (ask buffer.old version clock token uptime) }
{
    u32::from(result_number(ask(list, at, in_use, buffer, version, clock, token, uptime)))
}

// `associations::arrival`: the client's checks of a server reply (RFC 4330, section 5). The list tells whether an alternate server exists.
pub fn pongulvesz_list_arrival(
    list: &mut [u8],
    at: usize,
    in_use: &mut usize,
    answer: &mut [u8],
    t4: u64,
    packet: &[u8],
) -> u32
    ensures number { result ≡ number list.old at in_use.old (arrival answer.old t4 packet.now) }
    ensures list { list.new ≡ list_after list.old at in_use.old (arrival answer.old t4 packet.now) }
    ensures in_use { in_use.new ≡ in_use_after list.old at in_use.old (arrival answer.old t4 packet.now) }
    ensures answer { answer.new ≡ answer_after list.old at in_use.old (arrival answer.old t4 packet.now) }
{
    u32::from(result_number(arrival(list, at, in_use, answer, t4, packet)))
}

// `associations::give_up`: the request to one of the servers has timed out (RFC 4330, section 10).
pub fn pongulvesz_list_give_up(list: &mut [u8], at: usize, in_use: usize, uptime: u64) -> u32
    ensures number { result ≡ number list.old at in_use (give_up uptime) }
    ensures list { list.new ≡ list_after list.old at in_use (give_up uptime) }
{
    u32::from(result_number(give_up(list, at, in_use, uptime)))
}
