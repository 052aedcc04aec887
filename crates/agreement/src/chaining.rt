ghost use Rattle.std.specs.Prelude.{◌==◌, refl};

use chains::{ChainFault, Found, Linked, Test, append, push, thread, unlink, walk};

// A record that has nothing but a next and a name.
#[derive(Clone, Copy)]
struct Bead {
    name: u16,
    next: u16,
}

impl Linked for Bead {
    ghost after = { λ b. b.next };

    ghost led = { λ b n. record { name = b.name; next = n } };

    ghost leads = { λ r n. refl };

    ghost kept = { λ r. refl };

    ghost again = { λ r m n. refl };

    fn next(&self) -> u16 {
        self.next
    }

    fn lead(&mut self, n: u16) {
        self.next = n;
    }
}

// Whether a bead has this name.
#[derive(Clone, Copy)]
struct Named(u16);

impl Test<Bead> for Named {
    ghost passes = { λ t b. (b.name == t.0) };

    fn test(&self, b: &Bead) -> bool {
        b.name == self.0
    }
}

// The cell of the first bead of this name.
fn seek(cells: &[Bead], head: u16, name: u16) -> Result<Option<u16>, ChainFault> {
    Ok(walk(cells, head, &Named(name))?.map(|found| found.cell))
}

#[test]
fn beads(rt: HostRuntime) {
    let mut cells = [
        Bead { name: 10, next: 0 },
        Bead { name: 20, next: 0 },
        Bead { name: 30, next: 0 },
    ];
    assert_eq!(rt; thread(&mut cells, 2), Ok(1));
    assert_eq!(rt; seek(&cells, 1, 20), Ok(Some(2)));
    assert_eq!(rt; seek(&cells, 1, 30), Ok(None));
    assert_eq!(rt; append(&mut cells, 1, 2, 3), Ok(1));
    assert_eq!(rt; seek(&cells, 1, 30), Ok(Some(3)));
    assert_eq!(rt; unlink(&mut cells, 1, Found { before: 1, cell: 2 }), Ok(1));
    assert_eq!(rt; seek(&cells, 1, 20), Ok(None));
    assert_eq!(rt; seek(&cells, 1, 30), Ok(Some(3)));
    assert_eq!(rt; push(&mut cells, 1, 2), Ok(2));
    assert_eq!(rt; seek(&cells, 2, 10), Ok(Some(1)));
    assert!(rt; push(&mut cells, 1, 4).is_err());
    assert!(rt; thread(&mut cells, 4).is_err());
    assert_eq!(rt; seek(&cells, 7, 10), Err(ChainFault::Broken));
}
