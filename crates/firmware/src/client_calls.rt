// The client on an image. Every call refuses by 46 before anything else. A refused call returns its number and writes nothing.
ghost use Rattle.std.specs.Prelude.{◌≡◌, false, true, MatchResult};
ghost use Rattle.refusals.specs.declared.Refusal.TheVariants.{ImageNotLegal};
ghost use Rattle.ordered_tests.specs.Tests.{kept_of};
ghost use Rattle.firmware_layouts.specs.Image.{is_image, record_in, with_image};
ghost use Rattle.refusals.specs.Given.{result_number};
ghost use Rattle.firmware.specs.Client.{fresh_number, fresh_image, ask, arrival, give_up, number, image_after, buffer_after, answer_after};

use crate::numbers::narrow;
use client::{Called, Client};
use firmware_layouts::{ANSWER, IMAGE, read_image, write_answer, write_image};
use refusals::{Refusal, result_number};
use timestamp::Timestamp;
use token::Token;

// The record of an image.
#[tactic(auto, unfolding(firmware_layouts::specs::Image::image_read))]
pub fn record_of(image: &[u8]) -> Result<Client, Refusal>
    ensures { MatchResult result (λ c. (is_image image.now ≡ true) × (record_in image.now ≡ c)) (λ r. (is_image image.now ≡ false) × (r ≡ ImageNotLegal)) }
{
    read_image(image).ok_or(Refusal::ImageNotLegal)
}

// The end of an ask or a give-up: the next record is put in the image, unless the call is refused.
fn end(image: &mut [u8], called: Called<()>) -> Result<(), Refusal>
    ensures answer { result ≡ called.answer }
    ensures image { image.new ≡ kept_of called.answer image.old (with_image image.old called.client) }
{
    called.answer?;
    write_image(image, called.client);
    Ok(())
}

// The image of a client that has never asked.
pub fn pongulvesz_fresh(image: &mut [u8]) -> u32
    ensures number { result ≡ fresh_number image.old }
    ensures image { image.new ≡ fresh_image image.old }
{
    if image.len() != IMAGE {
        return u32::from(Refusal::ImageNotLegal.number());
    }
    write_image(image, Client::fresh());
    0
}

#[tactic(auto, unfolding(crate::specs::Client::number, crate::specs::Client::image_after, crate::specs::Client::buffer_after))]
fn ask(
    image: &mut [u8],
    buffer: &mut [u8],
    version: u32,
    clock: u64,
    token: u64,
    uptime: u64,
) -> Result<(), Refusal>
    ensures number { result_number result ≡ number image.old (ask buffer.old version clock token uptime) }
    ensures image { image.new ≡ image_after image.old (ask buffer.old version clock token uptime) }
    ensures buffer { buffer.new ≡ buffer_after image.old (ask buffer.old version clock token uptime) }
{
    let client = record_of(image)?;
    let called = client.ask(
        buffer,
        narrow(version),
        Timestamp::from(clock),
        Token(token),
        uptime,
    );
    end(image, called)
}

#[tactic(auto, using(crate::proofs::Calls::kept), unfolding(crate::specs::Client::number, crate::specs::Client::image_after, crate::specs::Client::answer_after))]
fn arrival(
    image: &mut [u8],
    answer: &mut [u8],
    t4: u64,
    alternate: u32,
    packet: &[u8],
) -> Result<(), Refusal>
    ensures number { result_number result ≡ number image.old (arrival answer.old t4 alternate packet.now) }
    ensures image { image.new ≡ image_after image.old (arrival answer.old t4 alternate packet.now) }
    ensures answer { answer.new ≡ answer_after image.old (arrival answer.old t4 alternate packet.now) }
{
    let client = record_of(image)?;
    if answer.len() != ANSWER {
        return Err(Refusal::ImageNotLegal);
    }
    let called = client.arrival(packet, Timestamp::from(t4), alternate != 0);
    write_answer(answer, called.answer?);
    write_image(image, called.client);
    Ok(())
}

#[tactic(auto, unfolding(crate::specs::Client::number, crate::specs::Client::image_after, crate::specs::Client::buffer_after))]
fn give_up(image: &mut [u8], uptime: u64) -> Result<(), Refusal>
    ensures number { result_number result ≡ number image.old (give_up uptime) }
    ensures image { image.new ≡ image_after image.old (give_up uptime) }
{
    let client = record_of(image)?;
    end(image, client.give_up(uptime))
}

// `Client::ask`: the client request of RFC 4330, section 5.
pub fn pongulvesz_ask(
    image: &mut [u8],
    buffer: &mut [u8],
    version: u32,
    clock: u64,
    token: u64,
    uptime: u64,
) -> u32
    ensures number { result ≡ number image.old (ask buffer.old version clock token uptime) }
    ensures image { image.new ≡ image_after image.old (ask buffer.old version clock token uptime) }
    ensures buffer { buffer.new ≡ buffer_after image.old (ask buffer.old version clock token uptime) }
{
    u32::from(result_number(ask(image, buffer, version, clock, token, uptime)))
}

// `Client::arrival`: the client's checks of a server reply (RFC 4330, section 5). `alternate` tells whether an alternate server exists: 0 is no.
pub fn pongulvesz_arrival(
    image: &mut [u8],
    answer: &mut [u8],
    t4: u64,
    alternate: u32,
    packet: &[u8],
) -> u32
    ensures number { result ≡ number image.old (arrival answer.old t4 alternate packet.now) }
    ensures image { image.new ≡ image_after image.old (arrival answer.old t4 alternate packet.now) }
    ensures answer { answer.new ≡ answer_after image.old (arrival answer.old t4 alternate packet.now) }
{
    u32::from(result_number(arrival(image, answer, t4, alternate, packet)))
}

// `Client::give_up`: the request has timed out (RFC 4330, section 10).
pub fn pongulvesz_give_up(image: &mut [u8], uptime: u64) -> u32
    ensures number { result ≡ number image.old (give_up uptime) }
    ensures image { image.new ≡ image_after image.old (give_up uptime) }
{
    u32::from(result_number(give_up(image, uptime)))
}
