// How much room a replay needs.
ghost use Rattle.std.specs.Prelude.{ℕ, ◌-◌, ◌^◌, ◌<◌, ◌≤◌, length};
ghost use Rattle.straight_predicates.specs.Tables.{table_of};
ghost use Rattle.certificate_checker.specs.LiveLists.{live_count};

use straight_predicates::Timetable;

/// The most edges that are live at a time, by how many end and start at each event; the greatest
/// number where they are as many or more, for which there is no room anyway.
pub fn most_live(table: &Timetable) -> usize
    ensures { result < 2 ^ 64 - 1 → (k : ℕ) → k ≤ length (table_of table.now)
        → live_count (table_of table.now) k ≤ result }
{
    let mut live: usize = 0;
    let mut most: usize = 0;
    for event in 0..table.events() {
        let left = live.saturating_sub(table.ending(event).len());
        live = left.saturating_add(table.starting(event).len());
        most = most.max(live);
    }
    most
}
