//! What the trials of the whole program share: maps, plans and reports; the program over files, reports and a station in
//! memory; and what a session says, read line by line.
#![tactic(auto)]

mod outside;
mod papers;
mod reading;

pub use outside::{
    end_of, joined, next_session, play, sent_behind, session, session_with, shelf_of, side_a,
    side_b, station_of,
};
pub use papers::{
    CORRIDOR, CORRIDOR_MAP, CORRIDOR_PLAN, CROSSING, CROSSING_MAP, CROSSING_PLAN, ROW, Script,
    Texts, WHOLE_PLAN, WITH_DELAYS,
};
pub use reading::{answers_in, kept_by};
