// Why a plant or a contract got what it got, for C and Rust.
ghost use Rattle.capi.specs.Why.{WhyPlantTold, WhyContractTold};

// Why a plant is scheduled as it is: number, place, reason and its figures go to the answer list, and the number is returned.
#[unsafe(no_mangle)]
pub extern "C" fn naomhral_why_plant(sheet: &[u8], plant: u32, answer: &mut [u32]) -> u32
    ensures { WhyPlantTold sheet.now plant answer.old result answer.new }
{
    capi::why::naomhral_why_plant(sheet, plant, answer)
}

// Why a contract is assigned its amount: number, place, reason, its figures and the reason's two values go to the answer list, and the
// number is returned.
#[unsafe(no_mangle)]
pub extern "C" fn naomhral_why_contract(sheet: &[u8], contract: u32, answer: &mut [u32]) -> u32
    ensures { WhyContractTold sheet.now contract answer.old result answer.new }
{
    capi::why::naomhral_why_contract(sheet, contract, answer)
}
