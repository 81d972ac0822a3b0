// Heaps as finite maps.
ghost use Rattle.std.specs.Prelude.{◌≡◌, ◌+◌, ◌^◌, ◌<◌, length, map, OnOk, OnErr, IfOk, MatchOption, Some, None};
ghost use Rattle.std.specs.FinMap.{entries, insert, remove, len};
ghost use Rattle.std.specs.BTreeMap.{IsOrdered};
ghost use Rattle.std.specs.Ordering.{nat_cmp};
ghost use Rattle.heap_formula.specs.Words.{max_of};
ghost use Rattle.heap_formula.specs.Cells.{cell_at, no_cells, IsHeap};
ghost use Rattle.heap_formula.specs.Programs.{cell_numbers};
ghost use Rattle.goto_lang.specs.States.{IsLeastFree};

use crate::stacks::greatest_of;
use cyc_basics::memory::OutOfMemory;
use std::alloc::{AllocError, Global};
use std::collections::BTreeMap;
use std::marker::Model;

/// The fields of a cell.
#[derive(Drop)]
struct Fields {
    values: Vec<u64>,
}

impl Model for Fields {
    ghost use Rattle.std.specs.Prelude.{List, ℕ};

    ghost Value = { List ℕ };

    ghost view = { λ f. f.values.items };
}

impl Clone for Fields {
    ghost is_clone = { λ fields copy. copy ≡ fields };

    fn clone(&self) -> Result<Fields, AllocError> {
        let values = self.values.clone()?;
        Ok(Fields { values })
    }
}

impl Fields {
    fn as_slice(&self) -> &[u64]
        ensures { result.now ≡ self.now }
    {
        &self.values
    }
}

/// A heap: a finite map from positive addresses to cells, each of which has a field at least.
#[derive(Drop)]
pub struct Cells {
    cells: BTreeMap<u64, Fields>,
}

impl Model for Cells {
    ghost use Rattle.std.specs.Prelude.{List, ℕ};
    ghost use Rattle.std.specs.Ordering.{nat_cmp};
    ghost use Rattle.std.specs.FinMap as map;
    ghost use Rattle.std.specs.Coded.{coded_ℕ, coded_list};
    ghost use Rattle.heap_formula.specs.Cells.{IsHeap};

    ghost Value = { map.FinMap nat_cmp (List ℕ) };

    ghost coded = { map.code coded_ℕ (coded_list coded_ℕ) };

    ghost view = { λ c. map.from_entries c.cells.entries };

    ghost invariant = { λ c. IsHeap (map.from_entries c.cells.entries) };
}

impl Clone for Cells {
    ghost is_clone = { λ cells copy. copy ≡ cells };

    fn clone(&self) -> Result<Cells, AllocError> {
        let cells = self.cells.clone()?;
        Ok(Cells { cells })
    }
}

impl Cells {
    /// The heap without cells.
    pub fn new(alloc: Global) -> Cells
        ensures { result ≡ no_cells }
    {
        Cells {
            cells: BTreeMap::new(alloc),
        }
    }

    /// The fields of the cell at an address.
    pub fn get(&self, address: u64) -> Option<&[u64]>
        ensures value { MatchOption result (cell_at self.now address ≡ None) (λ f. cell_at self.now address
            ≡ Some f.now) }
        ensures heap { IsHeap self.now }
    {
        match self.cells.get(&address) {
            Some(fields) => Some(fields.as_slice()),
            None => None,
        }
    }

    /// Puts a cell at an address, in place of one that is there.
    pub fn put(&mut self, address: u64, fields: Vec<u64>) -> Result<(), OutOfMemory>
        requires positive { 0 < address }
        requires some { 0 < length fields.items }
        ensures ok { OnOk result (self.new ≡ insert self.old address fields.items) }
        ensures err { OnErr result (self.new ≡ self.old) }
    {
        self.cells.insert(address, Fields { values: fields })?;
        Ok(())
    }

    /// Takes the cell at an address away, if there is one.
    pub fn remove(&mut self, address: u64)
        ensures { self.new ≡ remove self.old address }
    {
        self.cells.remove(&address);
    }

    /// How many cells there are.
    pub fn len(&self) -> usize
        ensures value { result ≡ len self.now }
        ensures fits { len self.now < 2 ^ 63 }
    {
        self.cells.len()
    }

    /// The greatest of all addresses and fields, 0 if there is none.
    pub fn greatest(&self) -> u64
        ensures { result ≡ max_of (cell_numbers (entries self.now)) }
    {
        greatest_in(&self.cells)
    }

    /// The addresses of the cells, ascending.
    pub fn addresses(&self, alloc: Global) -> Result<Vec<u64>, OutOfMemory>
        ensures value { IfOk result (λ v. v.items ≡ map (λ c. c.0) (entries self.now)) }
        ensures heap { IsHeap self.now }
    {
        let addresses = keys_of(alloc, &self.cells)?;
        Ok(addresses)
    }

    /// The least positive address at which no cell stands.
    pub fn least_free(&self) -> u64
        ensures { IsLeastFree self.now result }
    {
        let count = self.len() as u64;
        for address in 1..count + 1 {
            if self.get(address).is_none() {
                return address;
            }
        }
        count + 1
    }
}

fn keys_of(alloc: Global, cells: &BTreeMap<u64, Fields>) -> Result<Vec<u64>, AllocError>
    ensures value { IfOk result (λ v. v.items ≡ map (λ c. c.0) cells.now.entries) }
    ensures ordered { IfOk result (λ _. IsOrdered nat_cmp cells.now) }
{
    cells.keys().copied().collect(alloc)
}

fn greatest_in(cells: &BTreeMap<u64, Fields>) -> u64
    ensures value { result ≡ max_of (cell_numbers cells.now.entries) }
    ensures ordered { IsOrdered nat_cmp cells.now }
{
    let mut most = 0u64;
    for (address, fields) in cells {
        most = most.max(*address).max(greatest_of(fields.as_slice()));
    }
    most
}
