ghost use Rattle.std.specs.Prelude.{IfOk};
ghost use Rattle.engines.specs.Whole.{Whole};

use engines::{Open, SheetFault, Step};
use indexes::Index;
use keepers::Keeper;

// A sheet whose calls are printed, each with what it answers.
#[derive(Drop)]
pub(crate) struct Printed<'a, K: Keeper, I: Index> {
    pub(crate) rt: &'a HostRuntime,
    pub(crate) sheet: Open<K, I>,
}

impl<'a, K: Keeper + Drop, I: Index + Drop> Printed<'a, K, I> {
    // A sheet that is put together from a keeper and an index.
    pub(crate) fn new(rt: &'a HostRuntime, keeper: K, index: I) -> anyhow::Result<Printed<'a, K, I>>
        ensures { IfOk result (λ p. Whole K.Keeper I.Index p.sheet) }
    {
        let sheet = Open::new(rt.alloc(), keeper, index)?;
        Ok(Printed { rt, sheet })
    }
}

impl<K: Keeper, I: Index> Printed<'_, K, I> {
    // Adds a picture.
    pub(crate) fn add(&mut self, op: u16, inputs: &[u16]) -> anyhow::Result<()>
        requires { Whole K.Keeper I.Index self.old.sheet }
        ensures { Whole K.Keeper I.Index self.new.sheet }
    {
        print!(self.rt; "add {op} {inputs:?}: ")?;
        match self.sheet.add(op, inputs) {
            Ok(added) => println!(self.rt;
                "picture {}, lowest in its class {}",
                added.number, added.lowest
            )?,
            Err(fault) => {
                show_fault(self.rt, fault)?;
            }
        }
        Ok(())
    }

    // Tells that two pictures are the same. Answers the steps that were written.
    pub(crate) fn same(&mut self, table: &mut [Step], a: u16, b: u16) -> anyhow::Result<u16>
        requires { Whole K.Keeper I.Index self.old.sheet }
        ensures { Whole K.Keeper I.Index self.new.sheet }
    {
        let cells = table.len();
        print!(self.rt; "same {a} {b}, {cells} cells: ")?;
        match self.sheet.same(table, a, b) {
            Ok(joined) => {
                println!(self.rt; "entry {}, {} joins", joined.entry, joined.joins)?;
                Ok(0)
            }
            Err(fault) => show_fault(self.rt, fault),
        }
    }

    // Tells that two pictures differ. Answers the steps that were written.
    pub(crate) fn differ(&mut self, table: &mut [Step], a: u16, b: u16) -> anyhow::Result<u16>
        requires { Whole K.Keeper I.Index self.old.sheet }
        ensures { Whole K.Keeper I.Index self.new.sheet }
    {
        let cells = table.len();
        print!(self.rt; "differ {a} {b}, {cells} cells: ")?;
        match self.sheet.differ(table, a, b) {
            Ok(entry) => {
                println!(self.rt; "entry {entry}")?;
                Ok(0)
            }
            Err(fault) => show_fault(self.rt, fault),
        }
    }

    // Asks whether two pictures must be the same.
    pub(crate) fn must(&mut self, a: u16, b: u16) -> anyhow::Result<()>
        requires { Whole K.Keeper I.Index self.old.sheet }
        ensures { Whole K.Keeper I.Index self.new.sheet }
    {
        print!(self.rt; "must {a} {b}: ")?;
        match self.sheet.must(a, b) {
            Ok(true) => println!(self.rt; "yes")?,
            Ok(false) => println!(self.rt; "no")?,
            Err(fault) => {
                show_fault(self.rt, fault)?;
            }
        }
        Ok(())
    }

    // Asks why two pictures are the same. Answers the steps that were written.
    pub(crate) fn why(&mut self, table: &mut [Step], a: u16, b: u16) -> anyhow::Result<u16>
        requires { Whole K.Keeper I.Index self.old.sheet }
        ensures { Whole K.Keeper I.Index self.new.sheet }
    {
        let cells = table.len();
        print!(self.rt; "why {a} {b}, {cells} cells: ")?;
        match self.sheet.why(table, a, b) {
            Ok(steps) => {
                println!(self.rt; "{steps} steps")?;
                Ok(steps)
            }
            Err(fault) => show_fault(self.rt, fault),
        }
    }

    // Adds the source of operation 1 so many times, and prints nothing.
    pub(crate) fn fill_pictures(&mut self, times: u16)
        requires { Whole K.Keeper I.Index self.old.sheet }
        ensures { Whole K.Keeper I.Index self.new.sheet }
    {
        for _ in 0..times {
            let _ = self.sheet.add(1, &[]);
        }
    }

    // Tells so many times that picture 1 is the same as itself, and prints nothing.
    pub(crate) fn fill_entries(&mut self, table: &mut [Step], times: u16)
        requires { Whole K.Keeper I.Index self.old.sheet }
        ensures { Whole K.Keeper I.Index self.new.sheet }
    {
        for _ in 0..times {
            let _ = self.sheet.same(table, 1, 1);
        }
    }
}

// Prints the number and the detail of a refusal, and of a contradiction its steps. Answers the steps that were written.
fn show_fault(rt: &HostRuntime, fault: SheetFault) -> anyhow::Result<u16> {
    let number = fault.number();
    let detail = fault.detail();
    print!(rt; "refused with {number}, detail {detail}")?;
    if let SheetFault::Contradiction(clash) = fault {
        println!(rt; ", {} steps", clash.steps)?;
        return Ok(clash.steps);
    }
    println!(rt; "")?;
    Ok(0)
}
