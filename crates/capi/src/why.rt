// Why a plant or a contract got what it got, for C and Rust.
ghost use Rattle.capi.specs.Why.{WhyPlantTold, WhyContractTold};
ghost use Rattle.std.specs.Prelude.{◌≡◌};
ghost use Rattle.reasons.specs.Reasons.{first_value, second_value};

use crate::tell;
use reasons::ContractReason;
use refusals::Refusal;

// The two values of a reason: the quantities ahead and the buyer's demand, or what remains when the group is reached and what it asks.
fn first_value(reason: ContractReason) -> u32
    ensures { result ≡ first_value reason }
{
    match reason {
        ContractReason::Fixed => 0,
        ContractReason::Needed(v) => v.ahead,
        ContractReason::Covered(v) => v.ahead,
        ContractReason::Fits(v) => v.remainder,
        ContractReason::Shares(v) => v.remainder,
        ContractReason::Dearer(v) => v.remainder,
    }
}

fn second_value(reason: ContractReason) -> u32
    ensures { result ≡ second_value reason }
{
    match reason {
        ContractReason::Fixed => 0,
        ContractReason::Needed(v) => v.demand,
        ContractReason::Covered(v) => v.demand,
        ContractReason::Fits(v) => v.total,
        ContractReason::Shares(v) => v.total,
        ContractReason::Dearer(v) => v.total,
    }
}

// Why a plant is scheduled as it is: number, place, reason and its figures go to the answer list, and the number is returned.
pub fn naomhral_why_plant(sheet: &[u8], plant: u32, answer: &mut [u32]) -> u32
    ensures { WhyPlantTold sheet.now plant answer.old result answer.new }
{
    if answer.len() < 8 {
        return Refusal::ROOM;
    }
    match reasons::why_plant(sheet, plant) {
        Ok(k) => {
            let reason = reasons::plant_number(k.reason);
            let numbers = [
                0,
                0,
                reason,
                k.scheduled,
                k.available,
                k.must,
                k.offer,
                k.price,
            ];
            tell(&numbers, answer)
        }
        Err(why) => tell(&[why.number, why.place, 0, 0, 0, 0, 0, 0], answer),
    }
}

// Why a contract is assigned its amount: number, place, reason, its figures and the reason's two values go to the answer list, and the
// number is returned.
pub fn naomhral_why_contract(sheet: &[u8], contract: u32, answer: &mut [u32]) -> u32
    ensures { WhyContractTold sheet.now contract answer.old result answer.new }
{
    if answer.len() < 8 {
        return Refusal::ROOM;
    }
    match reasons::why_contract(sheet, contract) {
        Ok(k) => {
            let reason = reasons::contract_number(k.reason);
            let first = first_value(k.reason);
            let second = second_value(k.reason);
            tell(
                &[0, 0, reason, k.quantity, k.amount, k.price, first, second],
                answer,
            )
        }
        Err(why) => tell(&[why.number, why.place, 0, 0, 0, 0, 0, 0], answer),
    }
}
