// What C calls, the archive liblomphachit.a: each function of `lomphachit` under its own name, with its promise.
// May depend on lomphachit and on what its clauses cite.
#![tactic(auto)]

ghost use Rattle.std.specs.Prelude.{◌≡◌, length};
ghost use Rattle.format.specs.Tables.{link};
ghost use Rattle.reader.specs.Reading.{check_of};
ghost use Rattle.reader.specs.Words.{leaving, read_words};
ghost use Rattle.writer.specs.Words.{leaving as written, write_words, measured, measure_words};

// 0 for a document of the link, else the place times 32 plus the refusal's number.
// No octets: 1, which is SIZE at place 0; 0 would be wrong. E0 00 00 01 00 and nothing behind it: 162, which is TRUNCATED at place 5; 2, without the place, would be wrong.
#[unsafe(no_mangle)]
pub extern "C" fn lomphachit_check(octets: &[u8]) -> u32
    ensures { result ≡ check_of link octets.now }
{
    lomphachit::lomphachit_check(octets)
}

// The events, tables and counts of a document into lent words; the answer has the event count above its low 32 bits, and in them 0,
// or the place times 32 plus the refusal's number.
// Wrong would be: on a refusal, a word that is left of an event before the fault; on acceptance, a word behind the last event that stood there before the call.
#[unsafe(no_mangle)]
pub extern "C" fn lomphachit_read(
    octets: &[u8],
    records: &mut [u32],
    tables: &mut [u32],
    counts: &mut [u32],
) -> u64
    ensures { leaving result records.new tables.new counts.new ≡ read_words link octets.now (length records.old) (length tables.old) (length counts.old) }
{
    lomphachit::lomphachit_read(octets, records, tables, counts)
}

// A document from tables for its head in words, none being allowed, and records in words, both over a text area, into lent octets, tables and counts; the answer
// has the octet count above its low 32 bits, and in them 0 or the event's number times 32 plus the refusal's; what is wrong with the given tables is refused at 0.
// Wrong would be: on acceptance, an octet behind the document that stood there before the call; ROOM with the number of the event behind the one that does not fit;
// FULL (12) for given tables that have too many local names and one of them twice, which is REPEAT (11); ROOM (14) at event 0 for given tables whose strings are no
// text and whose head does not fit, which is TEXT (9).
#[unsafe(no_mangle)]
pub extern "C" fn lomphachit_write(
    given: &[u32],
    records: &[u32],
    text: &[u8],
    out: &mut [u8],
    tables: &mut [u32],
    counts: &mut [u32],
) -> u64
    ensures { written result out.new tables.new counts.new ≡ write_words link given.now records.now text.now (length out.old) (length tables.old) (length counts.old) }
{
    lomphachit::lomphachit_write(given, records, text, out, tables, counts)
}

// The length of the document that `lomphachit_write` makes of the same words, and its tables and counts, before any output is lent: the answer has the octet count above
// its low 32 bits, and in them 0 or the event's number times 32 plus the refusal's. ROOM by size is refused for more than 16,384 octets only.
// Wrong would be: a count that leaves out the last octet, where the document's end fills only half of it; ROOM (14) for events that make exactly 16,384 octets; on a
// refusal, counts that are left of an earlier call.
#[unsafe(no_mangle)]
pub extern "C" fn lomphachit_measure(
    given: &[u32],
    records: &[u32],
    text: &[u8],
    tables: &mut [u32],
    counts: &mut [u32],
) -> u64
    ensures { measured result tables.new counts.new ≡ measure_words link given.now records.now text.now (length tables.old) (length counts.old) }
{
    lomphachit::lomphachit_measure(given, records, text, tables, counts)
}
