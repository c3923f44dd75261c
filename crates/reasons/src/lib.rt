// Why did I get this? Of one plant or one contract of a sheet: the refusals of the sheet, then 12, else the first reason that holds, with
// the figures that it rests on.
#![tactic(auto)]

ghost use Rattle.std.specs.Prelude.{◌≡◌, ◌≤◌, length};
ghost use Rattle.limits.specs.Limits.{most_plants, most_contracts};
ghost use Rattle.sheet.specs.Reading.{read_of};
ghost use Rattle.reasons.specs.Reasons.{plant_reason_number, contract_reason_number, plant_reason_by, plant_why, contract_why};
ghost use Rattle.balance.specs.Balances.{zeros};
ghost use Rattle.reasons.specs.Parts.{HourSettled};

use limits::{Agent, Contract, Plant};
use refusals::Refusal;
use sheet::Counts;

mod passes;

// Why a plant is scheduled as it is.
#[derive(Clone, Copy)]
pub enum PlantReason {
    // nothing available
    Nothing = 1,
    // scheduled to the full
    Full = 2,
    // only its must-run
    Must = 3,
    // partly scheduled, the last one needed
    Last = 4,
    // not reached
    Beyond = 5,
}

// The reason with the plant's figures in kWh, its offer price and the bolsa price.
#[derive(Clone, Copy)]
pub struct PlantCase {
    pub reason: PlantReason,
    pub scheduled: u32,
    pub available: u32,
    pub must: u32,
    pub offer: u32,
    pub price: u32,
}

// The quantities ahead of a conditional contract, and its buyer's commercial demand.
#[derive(Clone, Copy)]
pub struct Ahead {
    pub ahead: u32,
    pub demand: u32,
}

// What is left when a price group is reached, and what the group asks in all.
#[derive(Clone, Copy)]
pub struct Group {
    pub remainder: u32,
    pub total: u32,
}

// Why a contract is assigned its amount.
#[derive(Clone, Copy)]
pub enum ContractReason {
    Fixed,
    // conditional and needed
    Needed(Ahead),
    // conditional, and the energy ahead already covered the demand
    Covered(Ahead),
    // demanded, in a price group that fits
    Fits(Group),
    // in the group that shares
    Shares(Group),
    // in a dearer group
    Dearer(Group),
}

// The reason with the contract's figures.
#[derive(Clone, Copy)]
pub struct ContractCase {
    pub reason: ContractReason,
    pub quantity: u32,
    pub amount: u32,
    pub price: u32,
}

// The number that a reason is told by: the C interface tells numbers.
pub fn plant_number(reason: PlantReason) -> u32
    ensures { result ≡ plant_reason_number reason }
{
    reason as u32
}

// the reasons of a contract carry figures: such variants carry no numbers
pub fn contract_number(reason: ContractReason) -> u32
    ensures { result ≡ contract_reason_number reason }
{
    match reason {
        ContractReason::Fixed => 1,
        ContractReason::Needed(_) => 2,
        ContractReason::Covered(_) => 3,
        ContractReason::Fits(_) => 4,
        ContractReason::Shares(_) => 5,
        ContractReason::Dearer(_) => 6,
    }
}

// The first reason that holds of a plant with this schedule, must-run and availability.
#[tactic(auto, unfolding(crate::specs::Reasons::plant_reason_by))]
fn judge_plant(scheduled: u32, must: u32, available: u32) -> PlantReason
    ensures { result ≡ plant_reason_by scheduled must available }
{
    if available == 0 {
        return PlantReason::Nothing;
    }
    if scheduled == available {
        return PlantReason::Full;
    }
    if (0 < must) & (scheduled == must) {
        return PlantReason::Must;
    }
    if (0 < scheduled) & (scheduled < available) {
        return PlantReason::Last;
    }
    PlantReason::Beyond
}

// Weighs an accepted sheet and trades, as `settle_columns` does (`trade` says why it has two callers), with lists of our own, which have
// room for every sheet; no agent's line is asked for. The bolsa price is handed back, or the sheet's refusal. Schedule, amounts and each
// agent's own energy are kept: a buyer's is its commercial demand.
fn settle_hour(
    bytes: &[u8],
    c: Counts,
    own: &mut [u32; Agent::MOST],
    schedule: &mut [u32],
    amounts: &mut [u32],
) -> Result<u32, Refusal>
    requires bytes_value { read_of bytes.now ≡ Ok c }
    requires own_value { (own.old ≡ zeros) × (most_plants ≤ length schedule.old) × (most_contracts ≤ length amounts.old) }
    ensures { HourSettled bytes.now own.new schedule.old schedule.new
        amounts.old amounts.new result }
{
    let mut kinds = [0u32; Agent::MOST];
    let mut shares = [0u32; Agent::MOST];
    let mut held = [0u32; Agent::MOST];
    let mut imports = [0u32; Agent::MOST];
    let w = ground::admit_with(
        bytes,
        c,
        &mut kinds,
        &mut shares,
        &mut held,
        own,
        &mut imports,
        true,
    )?;
    Ok(settle::trade(bytes, c, Ok(w), &mut held, own, schedule, amounts).price)
}

// Of an accepted sheet.
fn why_plant_read(bytes: &[u8], c: Counts, plant: u32) -> Result<PlantCase, Refusal>
    requires { read_of bytes.now ≡ Ok c }
    ensures { result ≡ plant_why bytes.now plant }
{
    let mut schedule = [0u32; Plant::MOST];
    let mut amounts = [0u32; Contract::MOST];
    let mut own = [0u32; Agent::MOST];
    let price = settle_hour(bytes, c, &mut own, &mut schedule, &mut amounts)?;
    let i = plant as usize;
    if c.plants <= i {
        return Err(Refusal {
            number: Refusal::ASKED,
            place: plant,
        });
    }
    let p = rows::plant_of(octets::row_at(bytes, c.agents + c.boundaries + i));
    Ok(PlantCase {
        reason: judge_plant(schedule[i], p.must, p.availability),
        scheduled: schedule[i],
        available: p.availability,
        must: p.must,
        offer: p.price,
        price,
    })
}

// Why a plant is scheduled as it is, for every string of bytes and every number.
pub fn why_plant(bytes: &[u8], plant: u32) -> Result<PlantCase, Refusal>
    ensures { result ≡ plant_why bytes.now plant }
{
    let c = sheet::read(bytes)?;
    why_plant_read(bytes, c, plant)
}

// Of an accepted sheet.
fn why_contract_read(bytes: &[u8], c: Counts, contract: u32) -> Result<ContractCase, Refusal>
    requires { read_of bytes.now ≡ Ok c }
    ensures { result ≡ contract_why bytes.now contract }
{
    let mut schedule = [0u32; Plant::MOST];
    let mut amounts = [0u32; Contract::MOST];
    let mut own = [0u32; Agent::MOST];
    settle_hour(bytes, c, &mut own, &mut schedule, &mut amounts)?;
    let j = contract as usize;
    if c.contracts <= j {
        return Err(Refusal {
            number: Refusal::ASKED,
            place: contract,
        });
    }
    let k = rows::contract_of(octets::row_at(bytes, c.agents + c.boundaries + c.plants + j));
    Ok(ContractCase {
        reason: passes::judge(bytes, c, k, j, own[k.buyer as usize]),
        quantity: k.quantity,
        amount: amounts[j],
        price: k.price,
    })
}

// Why a contract is assigned its amount, for every string of bytes and every number.
pub fn why_contract(bytes: &[u8], contract: u32) -> Result<ContractCase, Refusal>
    ensures { result ≡ contract_why bytes.now contract }
{
    let c = sheet::read(bytes)?;
    why_contract_read(bytes, c, contract)
}
