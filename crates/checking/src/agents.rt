// Point 25: the agents' lines.
ghost use Rattle.std.specs.Prelude.{◌≡◌, ◌*◌, ◌≤◌, length};
ghost use Rattle.limits.specs.Limits.{most_agents, most_offer};
ghost use Rattle.hour.specs.Lines.{cells_per_agent};
ghost use Rattle.statement.specs.Decide.{every};
ghost use Rattle.checking.specs.Parts.{line_test, line_at};

use limits::Agent;

// A line of agent's kind, own energy, import and contracts, against the five cells and the money that are stated.
fn line_good(
    kind: u32,
    own: u64,
    import: u32,
    contracted: u64,
    price: u32,
    c1: u32,
    c2: u32,
    c3: u32,
    c4: u32,
    c5: u32,
    money: i64,
) -> bool
    requires { price ≤ most_offer }
    ensures { result ≡ line_test kind own import contracted price c1 c2 c3 c4 c5 money }
{
    let buys = lines::bought(kind, c1, import, c3);
    let sells = lines::sold(kind, c1, c3);
    let due = lines::owed(c5, c4, price);
    (u64::from(c1) == own)
        & (c2 == import)
        & (u64::from(c3) == contracted)
        & (u64::from(c4) == buys)
        & (c5 == sells)
        & (money == due)
}

// All lines good.
pub(crate) fn good(
    kinds: &[u32],
    own: &[u64],
    imports: &[u32],
    held: &[u64],
    price: u32,
    figures: &[u32],
    money: &[i64],
) -> bool
    requires price_fits { price ≤ most_offer }
    requires in_bounds { (length kinds.now ≤ most_agents) × (length kinds.now ≤ length own.now)
        × (length kinds.now ≤ length imports.now) × (length kinds.now ≤ length held.now)
        × (cells_per_agent * length kinds.now ≤ length figures.now) × (length kinds.now ≤ length money.now) }
    ensures { result ≡ every (length kinds.now)
        (line_at kinds.now own.now imports.now held.now price
        figures.now money.now) }
{
    (0..kinds.len()).all(|a| {
        let k = Agent::CELLS * a;
        line_good(
            kinds[a],
            own[a],
            imports[a],
            held[a],
            price,
            figures[k + 1],
            figures[k + 2],
            figures[k + 3],
            figures[k + 4],
            figures[k + 5],
            money[a],
        )
    })
}
