// Terms that two states have in common.
use cyc_basics::memory::OutOfMemory;
use heap_formula::{Heap, Spatial, Term};
use rule_table::equated;
use seek_engine::terms_of;
use std::alloc::Global;

/// Two states at one line, the later one being the run's, and what both may speak of: terms, and pairs of terms, of
/// which one stands in the first state where the other stands in the second.
#[derive(Drop)]
pub struct Commons<'a> {
    pub alloc: Global,
    pub first: &'a Heap,
    pub second: &'a Heap,
    pub variables: u16,
    /// Whether nothing may be left out, or be over at a link: the program has an end.
    pub is_whole: bool,
    pub terms: Vec<Term>,
    pub pairs: Vec<(Term, Term)>,
}

/// Whether the term means the same in every state: `nil`, or a program variable.
pub fn is_fixed(term: Term, variables: u16) -> bool {
    match term {
        Term::Nil => true,
        Term::Univ(n) => n < variables,
        Term::Exist(_) => false,
    }
}

impl<'a> Commons<'a> {
    /// What the two states have in common.
    pub fn new(
        alloc: Global,
        first: &'a Heap,
        second: &'a Heap,
        variables: u16,
        is_whole: bool,
    ) -> Result<Commons<'a>, OutOfMemory> {
        let mut commons = Commons {
            alloc,
            first,
            second,
            variables,
            is_whole,
            terms: Vec::new(alloc),
            pairs: Vec::new(alloc),
        };
        commons.fill()?;
        Ok(commons)
    }

    /// Adds the terms of a list that are fixed or in both of the other lists, each once and paired with itself.
    fn push_terms(
        &mut self,
        terms: &[Term],
        earlier: &[Term],
        later: &[Term],
    ) -> Result<(), OutOfMemory> {
        for term in terms {
            let is_common = earlier.contains(term) && later.contains(term);
            if (is_common || is_fixed(*term, self.variables)) && !self.terms.contains(term) {
                self.terms.push(*term)?;
                self.pairs.push((*term, *term))?;
            }
        }
        Ok(())
    }

    /// Adds the terms at one place that differ, as long as there are fewer pairs.
    fn push_field_pairs(
        &mut self,
        most: usize,
        fields: &[Term],
        others: &[Term],
    ) -> Result<(), OutOfMemory> {
        for (i, t) in fields.iter().enumerate() {
            if let Some(u) = others.get(i) {
                let pair = (*t, *u);
                if *t != *u && self.pairs.len() < most && !self.pairs.contains(&pair) {
                    self.pairs.push(pair)?;
                }
            }
        }
        Ok(())
    }

    /// Adds pairs for the fields of cells with one address, two at most.
    fn push_pairs(&mut self) -> Result<(), OutOfMemory> {
        let most = self.pairs.len().saturating_add(2);
        for x in self.first.spatial() {
            for y in self.second.spatial() {
                if let (Spatial::Cell(t, fields), Spatial::Cell(u, others)) = (x, y) {
                    if *t == *u && fields.len() == others.len() {
                        self.push_field_pairs(most, fields.as_slice(), others.as_slice())?;
                    }
                }
            }
        }
        Ok(())
    }

    /// Adds the terms, and then the pairs.
    fn fill(&mut self) -> Result<(), OutOfMemory> {
        let earlier = terms_of(self.alloc, self.first)?;
        let later = terms_of(self.alloc, self.second)?;
        for terms in &[later.as_slice(), earlier.as_slice(), &[Term::Nil]] {
            self.push_terms(terms, &earlier, &later)?;
        }
        self.push_pairs()
    }

    /// The common term for a term of the first state and one of the second, up to their equations.
    pub fn meeting(&self, t: Term, u: Term) -> Option<Term> {
        if t == u {
            return Some(t);
        }
        for term in self.terms.iter() {
            if equated(self.first.pure(), *term, t) && equated(self.second.pure(), *term, u) {
                return Some(*term);
            }
        }
        None
    }
}
