//! Whether a state fits a database.
ghost use Rattle.std.specs.Prelude.{◌≡◌, ◌≤◌, ◌↔◌, IsTrue, length};
ghost use Rattle.std.specs.List.{list_all};
ghost use Rattle.scott_types.specs.State.{is_room_of, is_counter, is_place, FitsRooms, FitsCounters, FitsPlaces, Fits};

use crate::databases::Db;
use crate::states::State;

fn are_rooms(db: &Db, rooms: &[u8]) -> bool
    ensures { result ≡ list_all (is_room_of db.now) rooms.now }
{
    let count = db.parts().rooms.len();
    rooms.iter().all(|room| (*room as usize) < count)
}

fn rooms_fit(db: &Db, state: &State) -> bool
    ensures { IsTrue result ↔ FitsRooms db.now state.now }
{
    are_rooms(db, &[state.room]) && are_rooms(db, &[state.saved]) && are_rooms(db, &state.rooms)
}

fn counter_fits(counter: i16) -> bool
    ensures { result ≡ is_counter counter }
{
    -1 <= counter
}

fn are_counters(counters: &[i16]) -> bool
    ensures { result ≡ list_all is_counter counters.now }
{
    counters.iter().all(|counter| counter_fits(*counter))
}

fn counters_fit(state: &State) -> bool
    ensures { IsTrue result ↔ FitsCounters state.now }
{
    counter_fits(state.counter) && are_counters(&state.counters)
}

// Each byte is a place: its type says so, and the proof learns it here.
fn is_byte_place(_place: u8) -> bool
    ensures { result ≡ is_place _place }
{
    true
}

fn are_places(places: &[u8]) -> bool
    ensures { result ≡ list_all is_place places.now }
{
    places.iter().all(|place| is_byte_place(*place))
}

fn places_fit(db: &Db, state: &State) -> bool
    ensures { IsTrue result ↔ FitsPlaces db.now state.now }
{
    state.places.len() == db.parts().items.len() && are_places(state.places.as_slice())
}

impl State {
    /// Whether the state fits the database: docs/TURN.md says what that asks.
    pub fn fits(&self, db: &Db) -> bool
        ensures { IsTrue result ↔ Fits db.now self.now }
    {
        rooms_fit(db, self)
            && counters_fit(self)
            && -1 <= self.light
            && self.light <= db.parts().header.light
            && places_fit(db, self)
    }
}
