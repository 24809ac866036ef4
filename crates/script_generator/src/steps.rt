//! The table of the steps of a generated script.

ghost use Rattle.std.specs.Prelude.{◌≡◌, ◌<◌, ◌≤◌};
ghost use Rattle.script_generator.specs.Generated.{other, draw_from_1, step_by, step};

use crate::datacentres::datacentre;
use crate::draws::Draws;
use crate::shape::{DATACENTRE_COUNT, SESSION_COUNT};
use abstract_log::Step;
use cz_base::DcId;

/// The next step: a datacentre is drawn, then the row of the table, then what the row leaves open.
#[tactic(auto, unfolding(crate::specs::Generated::step))]
pub fn step(draws: &mut Draws) -> Step
    ensures { (result, draws.new) ≡ step draws.old }
{
    let d = datacentre(draws.draw(DATACENTRE_COUNT));
    let choice = draws.draw(16);
    step_by(draws, d, choice)
}

// A step at datacentre `d`, by the number that chose its row.
#[tactic(auto, unfolding(crate::specs::Generated::step_by))]
fn step_by(draws: &mut Draws, d: DcId, choice: u32) -> Step
    requires { d < 3 }
    ensures { (result, draws.new) ≡ step_by d choice draws.old }
{
    match choice {
        0..=1 => Step::Client {
            s: draws.draw(SESSION_COUNT),
        },
        2..=9 => stage_step(draws, d, choice),
        10..=13 => link_step(draws, d, choice),
        14 => Step::Floor {
            d,
            p: u64::from(draw_from_1(draws, 600)),
        },
        _ => Step::Collect {
            d,
            m: draws.draw(3),
        },
    }
}

// A step on the way of a record through the stages.
#[tactic(auto, unfolding(crate::specs::Generated::step_by))]
fn stage_step(draws: &mut Draws, d: DcId, choice: u32) -> Step
    requires { (2 ≤ choice) × (choice ≤ 9) }
    ensures { (result, draws.new) ≡ step_by d choice draws.old }
{
    match choice {
        2 => Step::Flush {
            d,
            b: draws.draw(2),
        },
        3 => Step::Pass {
            d,
            f: draws.draw(2),
            q: draws.draw(2),
        },
        4 => Step::Stamp {
            d,
            q: draws.draw(2),
        },
        5 => Step::Token { d },
        6 => Step::Place {
            d,
            q: draws.draw(2),
            m: draws.draw(3),
        },
        7 => Step::Gossip {
            d,
            m: draws.draw(3),
            k: draws.draw(3),
        },
        8 => Step::Post {
            d,
            m: draws.draw(3),
            i: draws.draw(2),
        },
        _ => Step::Learn { d },
    }
}

// A step at a link to another datacentre.
#[tactic(auto, unfolding(crate::specs::Generated::step_by))]
fn link_step(draws: &mut Draws, d: DcId, choice: u32) -> Step
    requires there { d < 3 }
    requires link { (10 ≤ choice) × (choice ≤ 13) }
    ensures { (result, draws.new) ≡ step_by d choice draws.old }
{
    match choice {
        10 => Step::Send {
            d,
            k: draws.draw(2),
            e: other(draws, d),
        },
        11 => Step::Deliver {
            d,
            e: other(draws, d),
            k: draw_from_1(draws, 4),
            r: draws.draw(2),
        },
        12 => Step::Lose {
            d,
            e: other(draws, d),
            k: draw_from_1(draws, 4),
        },
        _ => Step::Copy {
            d,
            e: other(draws, d),
            k: draw_from_1(draws, 4),
        },
    }
}

// A datacentre other than `d`.
#[tactic(auto, unfolding(crate::specs::Generated::other))]
fn other(draws: &mut Draws, d: DcId) -> DcId
    requires { d < 3 }
    ensures { (result, draws.new) ≡ other d draws.old }
{
    let number = draws.draw(2);
    datacentre((d.number() + 1 + number) % DATACENTRE_COUNT)
}

// A number from 1 to `most`.
#[tactic(auto, unfolding(crate::specs::Generated::draw_from_1))]
fn draw_from_1(draws: &mut Draws, most: u32) -> u32
    requires { 1 ≤ most }
    ensures { (result, draws.new) ≡ draw_from_1 most draws.old }
{
    1 + draws.draw(most)
}
