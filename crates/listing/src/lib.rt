// The listing of a card's rounds, from the line that asks for it to the last byte written. `text` writes bytes and numbers, and `rounds`
// runs the card and writes its lines. Schedule and k stay numbers, as the calls and the definitions have them; who needs their bounds asks for
// them. Arrays hold what is written and read, since nothing here asks for memory.
#![tactic(auto)]

ghost use Rattle.std.specs.Prelude.{◌≡◌, ◌+◌, ◌≤◌, length};
ghost use Rattle.lists.specs.Written.{Written};
ghost use Rattle.listing.specs.Listing.{line_for, head_line, total_line, listing_of, Listing};
ghost use Rattle.listing.specs.Listing.{reads as is_read};
ghost use Rattle.listing.specs.Listing.{decides as is_decided};
ghost use Rattle.listing.specs.Steps.{Put};

use records::put;
use text::Page;

mod rounds;
mod text;

// The bytes lent for a listing. None is longer: it has at most 2047 rounds, each with a line of at most 110 bytes, and two lines more.
const MOST: usize = 262144;

// The bytes of an input that decide, even where LF is not among them: one more than the longest line that can be read has.
pub const ENOUGH: usize = 11;

// The largest record of a card with k up to 10: 16 bytes, and 18 slots of 16.
const RECORD: usize = 304;

// The line that asks for a schedule and k.
fn put_asked(schedule: u32, k: u32, page: &mut Page<'_>)
    requires { page.old.at + length (line_for schedule k) ≤ length page.old.text.now }
    ensures { Put (line_for schedule k) page.old page.new }
{
    page.put(printing::schedule_name(schedule));
    page.put(b" ");
    page.put_decimal(k);
}

// The first line: the line that was read, after "pebbles".
fn put_head(schedule: u32, k: u32, page: &mut Page<'_>)
    requires { page.old.at + length (head_line schedule k) ≤ length page.old.text.now }
    ensures { Put (head_line schedule k) page.old page.new }
{
    page.put(b"pebbles ");
    put_asked(schedule, k, page);
    page.put(b"\n");
}

// The last line: all hashes.
fn put_total(hashes: u32, page: &mut Page<'_>)
    requires { page.old.at + length (total_line hashes) ≤ length page.old.text.now }
    ensures { Put (total_line hashes) page.old page.new }
{
    page.put(b"total ");
    page.put_field(hashes, b'\n');
}

// Starts a card, and writes the listing of all its rounds. Positions and hashes do not go by the values on the card, so any seed will do.
fn put_listing(schedule: u32, k: u32, text: &mut [u8]) -> usize
    requires { (schedule ≤ 3) × (k ≤ 10) × (length text.old ≡ 262144) }
    ensures { Written (listing_of schedule k) 0 text.old result text.new }
{
    let seed = [0u8; 16];
    let mut card = [0u8; RECORD];
    card::start(0, k, schedule, &seed, &mut card).unwrap();
    let mut page = Page { text, at: 0 };
    put_head(schedule, k, &mut page);
    let hashes = rounds::put_rounds(schedule, k, &mut card, &mut page);
    put_total(hashes, &mut page);
    page.at
}

// Whether the input begins with the line, and LF or the end comes behind it.
fn reads(line: &[u8], input: &[u8]) -> bool
    ensures { result ≡ is_read line.now input.now }
{
    match input.strip_prefix(line) {
        None => false,
        Some([]) => true,
        Some([next, ..]) => *next == b'\n',
    }
}

// Whether the input asks for this schedule and k.
fn asks(schedule: u32, k: u32, input: &[u8]) -> bool
    requires { (schedule ≤ 3) × (k ≤ 10) }
    ensures { result ≡ is_read (line_for schedule k) input.now }
{
    let mut line = [0u8; 10];
    let mut page = Page {
        text: &mut line,
        at: 0,
    };
    put_asked(schedule, k, &mut page);
    let end = page.at;
    reads(&line[..end], input)
}

// Whether these bytes of an input decide: LF is among them, or there are eleven. Then `listing` writes the same for them and for them with
// anything behind (`rest_changes_nothing`, specs/Lines.antt), so a reader stops here.
pub fn decides(input: &[u8]) -> bool
    ensures { result ≡ is_decided input.now }
{
    ENOUGH <= input.len() || input.contains(&b'\n')
}

// Reads the line and writes the listing that it asks for, or `refused` for a line that cannot be read, to the front of `text`.
// Answers how many bytes were written; those behind them stay. There are 44 lines to try: the four schedules, each with k from 0 to 10.
pub fn listing(input: &[u8], text: &mut [u8; MOST]) -> usize
    ensures { Listing input.now text.old result text.new }
{
    for schedule in (0..4).rev() {
        for k in (0..11).rev() {
            if asks(schedule, k, input) {
                return put_listing(schedule, k, text);
            }
        }
    }
    put(b"refused\n", 0, text)
}
