//! Tests of the ordered table, with a number, a pair and a triple for a key.
#![tactic(auto)]

pub mod keys;

#[cfg(test)]
mod tests {
    use crate::keys::{Event, EventKey, Meter, Number, Reading, Spot};
    use ordered::Table;
    use std::test::Fail;

    #[derive(Clone, Copy)]
    enum Call {
        Put(u16, u8),
        Remove(u16),
        Find(u16),
        At(usize),
        Len,
        Free,
        Clear,
    }

    // What the table answers.
    #[derive(Clone, Copy, Debug, PartialEq, Eq)]
    enum Answer {
        Granted,
        Refused,
        Removed(bool),
        Kind(Option<u8>),
        Count(usize),
        Cleared,
    }

    fn apply(table: &mut Table<'_, Meter>, call: Call) -> Answer {
        match call {
            Call::Put(address, kind) => {
                let number = Number(address);
                match table.put(Meter { number, kind }) {
                    Ok(()) => Answer::Granted,
                    Err(_) => Answer::Refused,
                }
            }
            Call::Remove(address) => Answer::Removed(table.remove(&Number(address))),
            Call::Find(address) => Answer::Kind(table.find(&Number(address)).map(|m| m.kind)),
            Call::At(index) => Answer::Kind(table.get(index).map(|m| m.kind)),
            Call::Len => Answer::Count(table.len()),
            Call::Free => Answer::Count(table.free()),
            Call::Clear => {
                table.clear();
                Answer::Cleared
            }
        }
    }

    const BLANK: Meter = Meter {
        number: Number(1),
        kind: 77,
    };

    #[test]
    fn puts_replaces_finds_and_removes(rt: HostRuntime) {
        let calls = [
            (Call::Put(300, 1), Answer::Granted),
            (Call::Put(5, 2), Answer::Granted),
            (Call::Put(70, 3), Answer::Granted),
            (Call::Put(70, 4), Answer::Granted),
            (Call::Len, Answer::Count(3)),
            (Call::At(0), Answer::Kind(Some(2))),
            (Call::At(1), Answer::Kind(Some(4))),
            (Call::At(2), Answer::Kind(Some(1))),
            (Call::At(3), Answer::Kind(None)),
            (Call::Find(70), Answer::Kind(Some(4))),
            (Call::Find(71), Answer::Kind(None)),
            (Call::Remove(6), Answer::Removed(false)),
            (Call::Remove(5), Answer::Removed(true)),
            (Call::Remove(5), Answer::Removed(false)),
            (Call::Free, Answer::Count(3)),
            (Call::At(0), Answer::Kind(Some(4))),
            (Call::Clear, Answer::Cleared),
            (Call::Find(70), Answer::Kind(None)),
        ];
        let mut places = [BLANK; 5];
        let mut table = Table::new(&mut places, 5);
        for (call, answer) in calls {
            assert_eq!(rt; apply(&mut table, call), answer);
        }
    }

    #[test]
    fn fills_up_to_the_limit(rt: HostRuntime) {
        let calls = [
            (Call::Free, Answer::Count(2)),
            (Call::Put(9, 1), Answer::Granted),
            (Call::Put(3, 2), Answer::Granted),
            (Call::Free, Answer::Count(0)),
            (Call::Put(4, 3), Answer::Refused),
            (Call::Put(9, 5), Answer::Granted),
            (Call::Remove(3), Answer::Removed(true)),
            (Call::Put(4, 3), Answer::Granted),
            (Call::At(0), Answer::Kind(Some(3))),
            (Call::At(1), Answer::Kind(Some(5))),
        ];
        let mut places = [BLANK; 4];
        let mut table = Table::new(&mut places, 2);
        for (call, answer) in calls {
            assert_eq!(rt; apply(&mut table, call), answer);
        }
        assert_eq!(rt; (places[2].kind, places[3].kind), (77, 77));
    }

    #[test]
    fn removes_the_readings_of_one_meter(rt: HostRuntime) {
        let spots = [(7, 255), (6, 255), (7, 0), (8, 0), (7, 3)];
        let spot = Spot {
            address: 0,
            slot: 0,
        };
        let mut places = [Reading { spot, value: 0 }; 6];
        let mut table = Table::new(&mut places, 6);
        for (address, slot) in spots {
            let spot = Spot { address, slot };
            let _ = table.put(Reading { spot, value: 1 });
        }
        table.remove_range(
            &Spot {
                address: 7,
                slot: 0,
            },
            &Spot {
                address: 7,
                slot: 255,
            },
        );
        for (address, slot) in spots {
            let kept = table.find(&Spot { address, slot }).is_some();
            assert_eq!(rt; kept, address != 7);
        }
    }

    #[test]
    fn orders_triples_by_their_first_difference(rt: HostRuntime) -> Result<(), Fail> {
        let rising = [(1, 2, 111), (1, 13, 0), (1, 13, 1), (2, 0, 0)];
        let key = EventKey {
            address: 0,
            journal: 0,
            entry: 0,
        };
        let mut places = [Event { key, code: 0 }; 4];
        let mut table = Table::new(&mut places, 4);
        for i in [2, 0, 3, 1u8] {
            let (address, journal, entry) = rising[usize::from(i)];
            let key = EventKey {
                address,
                journal,
                entry,
            };
            let _ = table.put(Event { key, code: i });
        }
        for i in 0..4u8 {
            let event = table.get(usize::from(i)).ok_or("none")?;
            assert_eq!(rt; event.code, i);
        }
        Ok(())
    }
}
