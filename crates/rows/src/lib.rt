// What each of the four kinds of row says, what an agent of each kind does, and what makes a row good.
#![tactic(auto)]

ghost use Rattle.std.specs.Prelude.{◌≡◌};
ghost use Rattle.rows.specs.Rows.{agent_of, boundary_of, plant_of, contract_of, agent_blank, boundary_blank};
ghost use Rattle.rows.specs.Rows.{carries_losses, is_generator, may_sell, may_buy, holds_plants, is_outside};
ghost use Rattle.rows.specs.Rows.{is_agent, agent_good, boundary_good, plant_good, contract_good};

use limits::{Agent, Boundary, Contract, Plant};
use octets::Words;

// What a row says.
pub fn agent_of(w: Words) -> Agent
    ensures { result ≡ agent_of w }
{
    Agent { kind: w.first }
}

pub fn boundary_of(w: Words) -> Boundary
    ensures { result ≡ boundary_of w }
{
    Boundary {
        agent: w.first % 65536,
        factor: w.first / 65536,
        import: w.third,
        export: w.fourth,
    }
}

pub fn plant_of(w: Words) -> Plant
    ensures { result ≡ plant_of w }
{
    Plant {
        agent: w.first % 65536,
        inflexible: w.first / 65536,
        must: w.second,
        price: w.third,
        availability: w.fourth,
    }
}

pub fn contract_of(w: Words) -> Contract
    ensures { result ≡ contract_of w }
{
    Contract {
        seller: w.first % 65536,
        buyer: w.first / 65536,
        kind: w.second,
        price: w.third,
        quantity: w.fourth,
    }
}

// The unused bytes of an agent's row are 0; those of a boundary's.
pub fn agent_blank(w: Words) -> bool
    ensures { result ≡ agent_blank w }
{
    (w.second == 0) & (w.third == 0) & (w.fourth == 0)
}

pub fn boundary_blank(w: Words) -> bool
    ensures { result ≡ boundary_blank w }
{
    w.second == 0
}

// What an agent of this kind does.
pub fn carries_losses(kind: u32) -> bool
    ensures { result ≡ carries_losses kind }
{
    kind == Agent::RETAILER
}

pub fn is_generator(kind: u32) -> bool
    ensures { result ≡ is_generator kind }
{
    (kind == Agent::GENERATOR) | (kind == Agent::SMALL)
}

pub fn may_sell(kind: u32) -> bool
    ensures { result ≡ may_sell kind }
{
    (kind == Agent::GENERATOR) | (kind == Agent::SMALL)
}

pub fn may_buy(kind: u32) -> bool
    ensures { result ≡ may_buy kind }
{
    kind == Agent::RETAILER
}

pub fn holds_plants(kind: u32) -> bool
    ensures { result ≡ holds_plants kind }
{
    kind == Agent::GENERATOR
}

pub fn is_outside(kind: u32) -> bool
    ensures { result ≡ is_outside kind }
{
    is_generator(kind) & !holds_plants(kind)
}

pub fn is_agent(kind: u32) -> bool
    ensures { result ≡ is_agent kind }
{
    carries_losses(kind) | is_generator(kind)
}

// What makes a row good: one unbranched test each. A row that names an agent is judged with that agent's kind, 0 for none.
pub fn agent_good(a: Agent) -> bool
    ensures { result ≡ agent_good a }
{
    is_agent(a.kind)
}

pub fn boundary_good(kind: u32, b: Boundary) -> bool
    ensures { result ≡ boundary_good kind b }
{
    is_agent(kind)
        & limits::is_factor(b.factor)
        & limits::is_reading(b.import)
        & limits::is_reading(b.export)
        & (!is_generator(kind) | (b.factor == 0))
}

pub fn plant_good(kind: u32, p: Plant) -> bool
    ensures { result ≡ plant_good kind p }
{
    holds_plants(kind)
        & (p.inflexible <= Plant::INFLEXIBLE)
        & limits::is_offer(p.price)
        & limits::is_availability(p.availability)
        & (p.must <= p.availability)
        & ((p.inflexible != 0) | (p.must == 0))
}

pub fn contract_good(seller: u32, buyer: u32, c: Contract) -> bool
    ensures { result ≡ contract_good seller buyer c }
{
    may_sell(seller)
        & may_buy(buyer)
        & (Contract::FIXED <= c.kind)
        & (c.kind <= Contract::DEMANDED)
        & limits::is_price(c.price)
        & limits::is_quantity(c.quantity)
}
