// What a refusal's number means, in a sentence.
use refusals::Refusal;
use std::io;

fn of_row(number: u32) -> &'static str {
    match number {
        Refusal::LENGTH =>
            "The length is no sheet's: under 32 bytes, over 10272, or not a multiple of 16.\n",
        Refusal::LAYOUT =>
            "The trailer doesn't fit: a count over its limit, counts that don't make the length, or a wrong distance.\n",
        Refusal::AGENT => "That agent's kind is not 1 to 3, or an unused byte is not 0.\n",
        Refusal::BOUNDARY =>
            "That boundary's agent is absent, its factor over 5000 (0 for a generator), a reading over 4000000, or an unused byte set.\n",
        Refusal::PLANT =>
            "That plant's agent is no generator, its flag not 0 or 1, or its price, availability or must-run too large.\n",
        _ =>
            "That contract's seller is no generator, its buyer no retailer, its kind not 1 to 3, or its price or quantity too large.\n",
    }
}

fn of_hour(number: u32) -> &'static str {
    match number {
        Refusal::EXPORTS => "That retailer's referred exports exceed its referred imports.\n",
        Refusal::GAIN => "Losses are below zero: more energy left the system than entered it.\n",
        Refusal::UNSHARED => "There are losses, and no retailer consumed anything.\n",
        Refusal::UNCOVERED => "All plants together have less available than they have to meet.\n",
        Refusal::ROOM => "A list or a buffer is too short.\n",
        Refusal::ASKED => "There is no such row.\n",
        _ => "The plants must run more than they have to meet.\n",
    }
}

fn of_statement(number: u32) -> &'static str {
    match number {
        Refusal::SHARES =>
            "The loss shares don't follow: they don't sum to the losses, or one is 1 kWh or more off its proportion or a generator's.\n",
        Refusal::SCHEDULE =>
            "The schedule doesn't follow: a plant is out of bounds, the sum isn't what is to be met, or a cheaper one has energy left.\n",
        Refusal::PRICE =>
            "The price isn't the highest offer of a flexible plant in their own schedule.\n",
        Refusal::AMOUNTS =>
            "The contract amounts don't follow from the demands with their shares, for any order of equal prices.\n",
        _ => "An agent's line doesn't follow from their own shares, schedule, amounts and price.\n",
    }
}

fn meaning(number: u32) -> &'static str {
    if number <= Refusal::CONTRACT {
        of_row(number)
    } else if number <= Refusal::OVERRUN {
        of_hour(number)
    } else {
        of_statement(number)
    }
}

// A line of its own.
pub(crate) fn say_meaning<P: Print>(rt: &P, number: u32) -> io::Result<()> {
    rt.print(meaning(number))
}
