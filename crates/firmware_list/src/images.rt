// Images that stand one after another, read and written.
ghost use Rattle.std.specs.Prelude.{◌≡◌, true, length, set};
ghost use Rattle.ordered_tests.specs.Tests.{kept_of};
ghost use Rattle.association_rules.specs.Associations.{association};
ghost use Rattle.firmware_list.specs.Images.{count, is_list, list_has_values, HoldsFirst, lent_of, outer_refusal, outer_answer, with_record};

use client::Client;
use firmware_layouts::{IMAGE, read_image, record_of_values, write_image};
use refusals::Refusal;

// Puts a record at its number; past the eighth it puts nothing.
#[tactic(auto, using(crate::proofs::Lists::past_eighth))]
fn put(records: &mut [Client; 8], at: usize, client: Client)
    ensures { records.new ≡ set records.old at client }
{
    if at < 8 {
        records[at] = client;
    }
}

// Puts the records of the first eight images in their places, and tells whether all images have legal values. Each image is read once. The records are lent: a Result of
// them would be copied by memset and memcpy, and the archive calls nothing of the C library (docs/C.md).
#[tactic(auto, using(crate::proofs::Lists::not_whole, crate::proofs::Lists::no_values), unfolding(crate::specs::Images::list_has_values))]
fn load(list: &[u8], records: &mut [Client; 8]) -> bool
    ensures values { result ≡ list_has_values list.now }
    ensures records { result ≡ true → (length records.new ≡ 8) × HoldsFirst records.new (count list.now) list.now }
{
    if list.len() % IMAGE != 0 {
        return false;
    }
    for (i, image) in list.chunks_exact(IMAGE).enumerate() {
        let Some(client) = record_of_values(image) else {
            return false;
        };
        put(records, i, client);
    }
    true
}

// The records that the inner call is lent; it tests them for legality itself. A list of more than eight, of which nothing is read here, or one with octets that no
// image has, is lent as an empty list, which 35 refuses.
#[tactic(auto, using(crate::proofs::Lent::all_lent, crate::proofs::Lent::none_lent, crate::proofs::Lent::values_not_lent))]
pub(crate) fn lend<'a>(list: &[u8], records: &'a mut [Client; 8]) -> &'a mut [Client]
    ensures { result.now ≡ lent_of list.now }
{
    let count = list.len() / IMAGE;
    if 8 < count || !load(list, records) {
        return &mut [];
    }
    &mut records[..count]
}

// Tells whether the list is legal. 46 refuses any other.
#[tactic(auto, using(crate::proofs::Lists::no_image), unfolding(crate::specs::Images::is_list))]
fn is_list(list: &[u8]) -> bool
    ensures { result ≡ is_list list.now }
{
    // Before the images: a list with a part of an image is refused at the same cost whatever its length.
    if 0 < list.len() % IMAGE {
        return false;
    }
    for image in list.chunks_exact(IMAGE) {
        if read_image(image).is_none() {
            return false;
        }
    }
    true
}

// 46 comes before anything else: the inner call's refusal by 35 or 29 becomes one by 46 if the list is not legal. After 35 and 29 nothing is changed.
fn outer_refusal(list: &[u8], inner: Refusal) -> Refusal
    ensures { result ≡ outer_refusal (is_list list.now) inner }
{
    match inner {
        Refusal::NotInList | Refusal::RecordNotLegal if !is_list(list) => Refusal::ImageNotLegal,
        _ => inner,
    }
}

// The end of a call: the image of the record that was called is put in its place, unless the call is refused.
pub(crate) fn end<T>(
    list: &mut [u8],
    at: usize,
    answer: Result<T, Refusal>,
    lent: &[Client],
) -> Result<T, Refusal>
    ensures answer { result ≡ outer_answer (is_list list.old) answer }
    ensures list { list.new ≡ kept_of answer list.old (with_record list.old at (association lent.now at)) }
{
    match answer {
        Ok(told) => {
            store(list, at, lent.get(at).copied().unwrap_or(Client::fresh()));
            Ok(told)
        }
        Err(inner) => Err(outer_refusal(list, inner)),
    }
}

// Puts the image of a record in the place of a number; past the end of the list nothing is stored.
fn store(list: &mut [u8], at: usize, client: Client)
    ensures { list.new ≡ with_record list.old at client }
{
    if at < list.len() / IMAGE {
        write_image(&mut list[IMAGE * at..IMAGE * at + IMAGE], client);
    }
}
