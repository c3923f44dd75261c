// The page of an hour as bytes. A line is built from its end in a scratch array, since digits come least first, and then taken: once
// for its length, so that the lent buffer is untouched until it is known to be long enough, and once to be copied there.
#![tactic(auto)]

pub mod pen;

ghost use Rattle.std.specs.Prelude.{◌≡◌, ◌&&◌, ◌∷◌, [], ◌++◌, ◌+◌, ◌*◌, ◌≤◌, ◌<◌, leb, length, drop};
ghost use Rattle.limits.specs.Limits.{most_agents};
ghost use Rattle.printing.specs.Text.{spell, decimal, signed, spaced, lines_to};
ghost use Rattle.printing.specs.Page.{line_of, refused_text, page_of, print_verdict, Prints};
ghost use Rattle.printing.specs.Put.{Put, hour_head, head_of, lines_in, Listed, Appended};
ghost use Rattle.printing.specs.Agents.{line_in, lines_in_all};

use hour::Summary;
use limits::Agent;
use refusals::Refusal;

// What a page tells of the agents of an hour.
#[derive(Clone, Copy)]
struct Agents<'a> {
    kinds: &'a [u32],
    figures: &'a [u32],
    money: &'a [i64],
}

// One byte before byte `at`.
fn put_byte(s: &mut [u8], at: usize, b: u8) -> usize
    requires { (1 ≤ at) × (at ≤ length s.old) }
    ensures { Put (b ∷ drop at s.old) s.new at 1 result }
{
    s[at - 1] = b;
    at - 1
}

// n in decimal, before byte `at`.
fn put_decimal(s: &mut [u8], at: usize, n: u64) -> usize
    requires { (20 ≤ at) × (at ≤ length s.old) }
    ensures { Put (spell 19 n (drop at s.old)) s.new at 20 result }
{
    let mut i = at;
    let mut rest = n;
    // How many digits there are shows only as they are put, so nothing counts them beforehand.
    while rest >= 10 {
        i = put_byte(s, i, b'0' + (rest % 10) as u8);
        rest /= 10;
    }
    put_byte(s, i, b'0' + rest as u8)
}

// A number with a space behind it, before byte `at`.
fn put_spaced_one(s: &mut [u8], at: usize, n: u32) -> usize
    requires { (21 ≤ at) × (at ≤ length s.old) }
    ensures { Put (decimal n (32 ∷ drop at s.old)) s.new at 21 result }
{
    let i = put_byte(s, at, b' ');
    put_decimal(s, i, u64::from(n))
}

// Numbers with a space behind each, before byte `at`.
fn put_spaced(s: &mut [u8], at: usize, v: &[u32]) -> usize
    requires { (21 * length v.now ≤ at) × (at ≤ length s.old) }
    ensures { Put (spaced v.now (drop at s.old)) s.new at (21 * length v.now) result }
{
    let mut i = at;
    for &n in v.iter().rev() {
        i = put_spaced_one(s, i, n);
    }
    i
}

// A number with its sign, before byte `at`.
fn put_signed(s: &mut [u8], at: usize, x: i64) -> usize
    requires { (21 ≤ at) × (at ≤ length s.old) }
    ensures { Put (signed x (drop at s.old)) s.new at 21 result }
{
    let i = put_decimal(s, at, x.unsigned_abs());
    if x < 0 { put_byte(s, i, b'-') } else { i }
}

// A word, before byte `at`.
fn put_word(s: &mut [u8], at: usize, word: &[u8]) -> usize
    requires { (length word.now ≤ at) × (at ≤ length s.old) }
    ensures { Put (word.now ++ drop at s.old) s.new at (length word.now) result }
{
    let i = at - word.len();
    s[i..at].copy_from_slice(word);
    i
}

// Agent a's line, before byte `at`.
#[tactic(auto, unfolding(crate::specs::Page::line_of))]
fn put_line(s: &mut [u8], at: usize, agents: Agents, a: usize) -> usize
    requires room { (169 ≤ at) × (at ≤ length s.old) }
    requires listed { Listed (length agents.kinds.now) (length agents.figures.now) (length agents.money.now) }
    requires a_in { a < length agents.kinds.now }
    ensures { Put (line_in agents.entry a (drop at s.old)) s.new at 169 result }
{
    let i = put_byte(s, at, b'\n');
    let owed = agents.money[a];
    let j = put_signed(s, i, owed);
    let k = Agent::CELLS * a;
    let figures = agents.figures;
    let numbers = [
        a as u32,
        agents.kinds[a],
        figures[k + 1],
        figures[k + 2],
        figures[k + 3],
        figures[k + 4],
        figures[k + 5],
    ];
    put_spaced(s, j, &numbers)
}

// The first line of a settled hour at the end of `s`.
#[tactic(auto, unfolding(crate::specs::Put::hour_head))]
fn put_hour(s: &mut [u8], r: Summary) -> usize
    requires { 68 ≤ length s.old }
    ensures { (drop result s.new ≡ hour_head r) × (result ≤ length s.old) }
{
    let i = put_byte(s, s.len(), b'\n');
    let j = put_decimal(s, i, u64::from(r.losses));
    let numbers = [r.price, r.demand];
    let k = put_spaced(s, j, &numbers);
    put_word(s, k, b"hour ")
}

// The line of a refusal at the end of `s`.
#[tactic(auto, unfolding(crate::specs::Page::refused_text))]
fn put_refused(s: &mut [u8], r: Summary) -> usize
    requires { 50 ≤ length s.old }
    ensures { (drop result s.new ≡ refused_text r) × (result ≤ length s.old) }
{
    let i = put_byte(s, s.len(), b'\n');
    let j = put_decimal(s, i, u64::from(r.place));
    let numbers = [r.number];
    let k = put_spaced(s, j, &numbers);
    put_word(s, k, b"refused ")
}

// The first line of the page at the end of `s`.
#[tactic(auto, unfolding(crate::specs::Put::head_of))]
fn put_head(s: &mut [u8], r: Summary) -> usize
    requires { 68 ≤ length s.old }
    ensures { (drop result s.new ≡ head_of r) × (result ≤ length s.old) }
{
    if r.number == 0 {
        put_hour(s, r)
    } else {
        put_refused(s, r)
    }
}

// How many lines are behind it: one an agent, and none behind a refusal.
#[tactic(auto, unfolding(crate::specs::Put::lines_in))]
fn lines_in(r: Summary, agents: usize) -> usize
    ensures { (result ≡ lines_in r agents) × (result ≤ agents) }
{
    if r.number == 0 { agents } else { 0 }
}

// ---- how long the page is

// The scratch for a line has room for each of its numbers as if it had 64 bits, a byte behind each and one before it.
const HEAD: usize = 68;

const LINE: usize = 169;

fn head_length(r: Summary) -> usize
    ensures { (result ≡ length (head_of r)) × (result ≤ 68) }
{
    let mut s = [0u8; HEAD];
    HEAD - put_head(&mut s, r)
}

fn line_length(agents: Agents, a: usize) -> usize
    requires listed { Listed (length agents.kinds.now) (length agents.figures.now) (length agents.money.now) }
    requires a_in { a < length agents.kinds.now }
    ensures { (result ≡ length (line_in agents.entry a [])) × (result ≤ 169) }
{
    let mut s = [0u8; LINE];
    LINE - put_line(&mut s, LINE, agents, a)
}

fn lines_length(agents: Agents) -> usize
    requires listed { Listed (length agents.kinds.now) (length agents.figures.now) (length agents.money.now) }
    ensures { (result ≡ length (lines_in_all agents.entry)) × (result ≤ 169 * length agents.entry.kinds.now) }
{
    let mut k = 0;
    for a in 0..agents.kinds.len() {
        k += line_length(agents, a);
    }
    k
}

// ---- the page in the lent buffer

// A text, copied to byte k of `out` and those behind it.
fn copy_out(text: &[u8], out: &mut [u8], k: usize)
    requires { k + length text.now ≤ length out.old }
    ensures { Appended text.now k out.old out.new }
{
    out[k..k + text.len()].copy_from_slice(text);
}

fn write_head(r: Summary, out: &mut [u8])
    requires { length (head_of r) ≤ length out.old }
    ensures { Appended (head_of r) 0 out.old out.new }
{
    let mut s = [0u8; HEAD];
    let from = put_head(&mut s, r);
    copy_out(&s[from..], out, 0);
}

// Agent a's line from byte k on; handed back is where it ends.
fn write_line(agents: Agents, a: usize, out: &mut [u8], k: usize) -> usize
    requires listed { Listed (length agents.kinds.now) (length agents.figures.now) (length agents.money.now) }
    requires a_in { a < length agents.kinds.now }
    requires room { k + length (line_of agents.kinds.now agents.figures.now agents.money.now a []) ≤ length out.old }
    ensures { (result ≡ k + length (line_in agents.entry a []))
        × Appended (line_in agents.entry a []) k out.old out.new }
{
    let mut s = [0u8; LINE];
    let from = put_line(&mut s, LINE, agents, a);
    copy_out(&s[from..], out, k);
    k + (LINE - from)
}

// A line an agent, from byte `from` on.
fn write_lines(agents: Agents, out: &mut [u8], from: usize)
    requires listed { Listed (length agents.kinds.now) (length agents.figures.now) (length agents.money.now) }
    requires room { from + length (lines_to (line_of agents.kinds.now agents.figures.now agents.money.now) (length agents.kinds.now) [])
        ≤ length out.old }
    ensures { Appended (lines_in_all agents.entry) from out.old out.new }
{
    let mut k = from;
    for a in 0..agents.kinds.len() {
        k = write_line(agents, a, out, k);
    }
}

// The lists are those of no more agents than a sheet may have.
fn lists_good(kinds: usize, figures: usize, money: usize) -> bool
    ensures { result ≡ (leb kinds most_agents && leb (6 * kinds) figures && leb kinds money) }
{
    kinds <= Agent::MOST && Agent::CELLS * kinds <= figures && kinds <= money
}

// The page of an hour, put into a lent buffer.
pub fn print(
    r: Summary,
    kinds: &[u32],
    figures: &[u32],
    money: &[i64],
    out: &mut [u8],
) -> Result<usize, Refusal>
    ensures { Prints (print_verdict kinds.now figures.now money.now
        (length (page_of r kinds.now figures.now money.now)) (length out.old))
        (page_of r kinds.now figures.now money.now) out.old result out.new }
{
    if !lists_good(kinds.len(), figures.len(), money.len()) {
        return Err(Refusal {
            number: Refusal::LAYOUT,
            place: 0,
        });
    }
    let n = lines_in(r, kinds.len());
    let agents = Agents {
        kinds: &kinds[..n],
        figures,
        money,
    };
    let head = head_length(r);
    let size = head + lines_length(agents);
    if out.len() < size {
        return Err(Refusal {
            number: Refusal::ROOM,
            place: 0,
        });
    }
    write_head(r, out);
    write_lines(agents, out, head);
    Ok(size)
}
