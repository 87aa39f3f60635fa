//! The collector at a place.
ghost use Rattle.std.specs.Prelude.{◌≡◌, ◌<◌, IfOk};
ghost use Rattle.next_steps.specs.Asks.{place_of};
ghost use Rattle.next_steps.specs.Rounds.{ask_round, shard_done, store_done, heard_stopped, heard_strays, heard_round_as};
ghost use Rattle.next_rules.specs.Setups.{IsCount};
ghost use Rattle.next_collector.specs.Stages.{items_phase};

use crate::items::Items;
use next_ids::{Counts, NoMemory, PlaceNo};
use next_steps::{Answer, Ask, ClientSet};

/// What is done at a place: its strays are asked for, they are worked on, and a shard merges once they are done.
#[derive(Drop)]
pub enum Stage {
    Listing,
    Working(Items),
    Merging,
}

/// A place of the round, the clients that had stopped as the round began, and what is done at the place.
#[derive(Drop)]
pub struct Visit {
    clients: ClientSet,
    place: PlaceNo,
    stage: Stage,
    ghost near: { place.0 < 128 },
}

impl Visit {
    ghost use Rattle.next_collector.specs.Visits.{visit_phase, round_phase};

    /// The visit of the first shard, with the clients of the answer. None comes exactly where it has none.
    pub fn begin(answer: Answer) -> Option<Visit>
        ensures { round_phase result ≡ heard_stopped answer }
    {
        match answer {
            Answer::Clients(clients) => Some(Visit {
                clients,
                place: PlaceNo(0),
                stage: Stage::Listing,
            }),
            _ => None,
        }
    }

    // The visit of the place after a shard.
    fn after_shard(clients: ClientSet, place: PlaceNo, counts: Counts) -> Visit
        requires near { place.0 < 128 }
        requires shards { IsCount counts.shards }
        ensures { visit_phase result ≡ shard_done counts (record { clients = clients; place = place.0 }) }
    {
        let next = if place.0 + 1 < counts.shards {
            place.0 + 1
        } else {
            64
        };
        Visit {
            clients,
            place: PlaceNo(next),
            stage: Stage::Listing,
        }
    }

    // The visit of the place after a store. None comes exactly where it is the last.
    fn after_store(clients: ClientSet, place: PlaceNo, counts: Counts) -> Option<Visit>
        requires near { place.0 < 128 }
        requires stores { IsCount counts.stores }
        ensures { round_phase result ≡ store_done counts (record { clients = clients; place = place.0 }) }
    {
        if place.0 + 1 >= 64 + counts.stores {
            return None;
        }
        Some(Visit {
            clients,
            place: PlaceNo(place.0 + 1),
            stage: Stage::Listing,
        })
    }

    // The visit where these strays are still to do at the place. None comes exactly where the round is over.
    fn working(
        clients: ClientSet,
        place: PlaceNo,
        counts: Counts,
        items: Option<Items>,
    ) -> Option<Visit>
        requires near { place.0 < 128 }
        requires stores { IsCount counts.stores }
        ensures { round_phase result ≡ items_phase counts (record { clients = clients; place = place.0 }) items }
    {
        match items {
            Some(items) => Some(Visit {
                clients,
                place,
                stage: Stage::Working(items),
            }),
            None if place.0 < 64 => Some(Visit {
                clients,
                place,
                stage: Stage::Merging,
            }),
            None => Visit::after_store(clients, place, counts),
        }
    }

    // The visit after the answer that lists the strays of the place.
    fn listed(clients: ClientSet, place: PlaceNo, counts: Counts, answer: Answer) -> Option<Visit>
        requires near { place.0 < 128 }
        requires stores { IsCount counts.stores }
        ensures { round_phase result ≡ heard_strays counts (record { clients = clients; place = place.0 }) answer }
    {
        match answer {
            Answer::Strays(strays) => {
                Visit::working(clients, place, counts, Items::from(strays, 0))
            }
            _ => Some(Visit {
                clients,
                place,
                stage: Stage::Listing,
            }),
        }
    }

    /// The visit after the answer to what it asked. None comes exactly where the round is over.
    pub fn after(self, counts: Counts, answer: Answer) -> Option<Visit>
        requires shards { IsCount counts.shards }
        requires stores { IsCount counts.stores }
        ensures { round_phase result ≡ heard_round_as counts (visit_phase self) answer }
    {
        let Visit {
            clients,
            place,
            stage,
        } = self;
        match stage {
            Stage::Listing => Visit::listed(clients, place, counts, answer),
            Stage::Working(items) => {
                Visit::working(clients, place, counts, items.after(&answer))
            }
            Stage::Merging => Some(Visit::after_shard(clients, place, counts)),
        }
    }

    /// What is asked next.
    pub fn ask(&self) -> Result<Ask, NoMemory>
        ensures { IfOk result (λ ask. ask ≡ ask_round (visit_phase self.now)) }
    {
        match &self.stage {
            Stage::Listing => Ok(Ask::Strays {
                at: self.place,
                clients: self.clients.copy()?,
            }),
            Stage::Working(items) => items.ask(self.place),
            Stage::Merging => Ok(Ask::Merge { at: self.place }),
        }
    }

    /// The place that is asked next.
    pub fn next_place(&self) -> PlaceNo
        ensures { result ≡ place_of (ask_round (visit_phase self.now)) }
    {
        match &self.stage {
            Stage::Listing | Stage::Merging => self.place,
            Stage::Working(items) => items.next_place(self.place),
        }
    }
}
