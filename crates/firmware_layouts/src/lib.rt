// The octets that C lends to a call: the image of a client record, and the answer of an arrival (docs/C.md, "Layouts").
#![tactic(auto)]

ghost use Rattle.std.specs.Prelude.{◌≡◌, [], ◌∷◌, ◌++◌, ◌≤◌, length, get_or};
ghost use Rattle.std.proofs.lemmas.List.Edits.{sets};
ghost use Rattle.arithmetic.specs.Octets.{octets};
ghost use Rattle.client.specs.Calls.{said_arrival};
ghost use Rattle.firmware_layouts.specs.Image.{phase_of, octet_of_phase, octet_of_flag, record_in, has_legal_values, values_read, image_read, image_of, with_image};
ghost use Rattle.firmware_layouts.specs.Answer.{with_answer};

use client::{Client, Phase};
use octets::be32;
use offset::Measurement;
use reply_checks::ArrivalAnswer;
use slices::{octet_or_zero, read_be32, read_be64, write_be32, write_be64};
use timestamp::Timestamp;
use token::Token;
use twos_complement::bits64;

// The lengths of the two.
pub const IMAGE: usize = 32;

pub const ANSWER: usize = 24;

// ---- the image, read

// Any other octet than 0 and 1 is taken for stopped. No `From<u8>`: `Phase` is the client's, and only in an image another octet means stopped.
pub fn phase_of(octet: u8) -> Phase
    ensures { result ≡ phase_of octet }
{
    match octet {
        0 => Phase::Idle,
        1 => Phase::Waiting,
        _ => Phase::Stopped,
    }
}

// The octets that have few values have one of them. `octet_or_zero` reads them, so that no contract has to speak of the length.
#[tactic(auto, unfolding(crate::specs::Image::has_legal_values))]
fn has_legal_values(image: &[u8]) -> bool
    ensures { result ≡ has_legal_values image.now }
{
    (octet_or_zero(image, 0) <= 2)
        & (octet_or_zero(image, 2) <= 1)
        & (octet_or_zero(image, 3) <= 8)
        & (read_be32(image, 4) == 0)
}

#[tactic(auto, unfolding(crate::specs::Image::record_in))]
fn record(image: &[u8]) -> Client
    requires { get_or image.now 3 0 ≤ 8 }
    ensures { result ≡ record_in image.now }
{
    Client {
        phase: phase_of(octet_or_zero(image, 0)),
        t1: Timestamp::from(read_be64(image, 8)),
        token: Token(read_be64(image, 16)),
        version: octet_or_zero(image, 1),
        asked: octet_or_zero(image, 2) == 1,
        uptime: read_be64(image, 24),
        exponent: octet_or_zero(image, 3) + 6,
    }
}

// The record that 32 octets of legal values stand for; whether it is legal is left to the caller.
#[tactic(auto, unfolding(crate::specs::Image::values_read, crate::specs::Image::has_values, crate::specs::Image::has_legal_values))]
pub fn record_of_values(image: &[u8]) -> Option<Client>
    ensures { result ≡ values_read image.now }
{
    if image.len() != IMAGE || !has_legal_values(image) {
        return None;
    }
    Some(record(image))
}

// The record whose image this is, where there is a legal one.
#[tactic(auto, unfolding(crate::specs::Image::image_read, crate::specs::Image::is_image, crate::specs::Image::values_read, crate::specs::Image::has_values))]
pub fn read_image(image: &[u8]) -> Option<Client>
    ensures { result ≡ image_read image.now }
{
    let client = record_of_values(image)?;
    (!client.illegal()).then_some(client)
}

// ---- both, written

// Stores four octets and a number of four.
#[tactic(auto, using(slices::proofs::Slices::put_room, packet::proofs::Packet::octets_four, arithmetic::proofs::Octets::sets_append))]
fn put_head(b: &mut [u8], x0: u8, x1: u8, x2: u8, x3: u8, number: u32)
    requires { 8 ≤ length b.old }
    ensures { b.new ≡ sets b.old 0 ((x0 ∷ x1 ∷ x2 ∷ x3 ∷ []) ++ octets 4 number) }
{
    write_be32(b, 0, be32(x0, x1, x2, x3));
    write_be32(b, 4, number);
}

// A phase and a flag as octets, by the definitions that images have.
pub fn phase_octet(phase: Phase) -> u8
    ensures { result ≡ octet_of_phase phase }
{
    phase as u8
}

pub fn flag_octet(flag: bool) -> u8
    ensures { result ≡ octet_of_flag flag }
{
    u8::from(flag)
}

// Stores the image of a record.
fn put_image(b: &mut [u8; IMAGE], client: Client)
    ensures { b.new ≡ image_of client }
{
    put_head(
        b,
        phase_octet(client.phase),
        client.version,
        flag_octet(client.asked),
        client.exponent.saturating_sub(6),
        0,
    );
    write_be64(b, 8, client.t1.0);
    write_be64(b, 16, client.token.0);
    write_be64(b, 24, client.uptime);
}

// Writes the image of a record into a slice of its length, and nothing into any other.
pub fn write_image(image: &mut [u8], client: Client)
    ensures { image.new ≡ with_image image.old client }
{
    if let Some(image) = image.as_mut_array() {
        put_image(image, client);
    }
}

// Stores the octets of an answer.
fn put_answer(b: &mut [u8; ANSWER], kind: u8, half: u8, row: u8, code: u32, offset: u64, delay: u64)
    ensures { b.new ≡ (kind ∷ half ∷ row ∷ 0 ∷ []) ++ octets 4 code ++ octets 8 offset ++ octets 8 delay }
{
    put_head(b, kind, half, row, 0, code);
    write_be64(b, 8, offset);
    write_be64(b, 16, delay);
}

// Writes what an arrival tells into a slice of the answer's length, and nothing into any other.
#[tactic(auto, using(crate::proofs::Layouts::takes_answer), unfolding(crate::specs::Answer::answer_in, arithmetic::specs::Octets::octets))]
pub fn write_answer(answer: &mut [u8], told: ArrivalAnswer)
    ensures { answer.new ≡ with_answer answer.old (said_arrival (Ok told)) }
{
    if let Some(answer) = answer.as_mut_array() {
        match told {
            ArrivalAnswer::Accepted(
                Measurement {
                    offset,
                    half,
                    delay,
                },
            ) => put_answer(answer, 1, half, 0, 0, bits64(offset), bits64(delay)),
            ArrivalAnswer::Kiss { code, row } => put_answer(answer, 2, 0, row, code, 0, 0),
        }
    }
}
