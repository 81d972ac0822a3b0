// Terms in the place of variables and locals.
ghost use Rattle.std.specs.Prelude.{◌≡◌, ◌∷◌, [], MatchOption};
ghost use Rattle.fo_formula.specs.Values.{entry};
ghost use Rattle.fo_formula.specs.Words.{first_constant};
ghost use Rattle.fo_formula.specs.declared.terms.Sign.TheVariants.{Universal};
ghost use Rattle.fo_formula.specs.Table.{image};
ghost use Rattle.fo_rules.specs.Putting.{put, lone};

use fo_formula::{FoSubst, Sign, Term, Terms};

/// Which terms go in the place of variables and locals: in a case the arguments for its parameters, and terms for its
/// locals; elsewhere the terms of a substitution.
#[derive(Drop)]
pub enum Change {
    Instance { arguments: Terms, locals: Terms },
    Substitution(FoSubst),
}

fn term_at(terms: &[Term], n: u16) -> Option<&Term>
    ensures { MatchOption result (entry terms.now n ≡ first_constant) (λ t. entry terms.now n ≡ t.now) }
{
    if (n as usize) < terms.len() {
        Some(&terms[n as usize])
    } else {
        None
    }
}

fn term_of(pairs: &[(u16, Term)], n: u16) -> Option<&Term>
    ensures { MatchOption result (image pairs.now n ≡ Universal n ∷ []) (λ t. image pairs.now n ≡ t.now) }
{
    for (from, to) in pairs {
        if *from == n {
            return Some(to);
        }
    }
    None
}

impl Change {
    /// The term in a sign's place, if one goes there.
    pub fn term_for(&self, sign: Sign) -> Option<&Term>
        ensures { MatchOption result (put self.now sign ≡ lone self.now sign ∷ []) (λ t. put self.now sign ≡ t.now) }
    {
        match self {
            Change::Instance { arguments, locals } => match sign {
                Sign::Universal(n) => term_at(arguments.as_slice(), n),
                Sign::Local(n) => term_at(locals.as_slice(), n),
                Sign::Constructor { .. } => None,
            },
            Change::Substitution(pairs) => match sign {
                Sign::Universal(n) => term_of(pairs.as_slice(), n),
                Sign::Local(_) | Sign::Constructor { .. } => None,
            },
        }
    }

    /// The sign that stands in a sign's place where no term goes there.
    pub fn sign_for(&self, sign: Sign) -> Sign
        ensures { result ≡ lone self.now sign }
    {
        match self {
            Change::Instance { .. } => match sign {
                Sign::Universal(_) | Sign::Local(_) => Sign::Constructor {
                    number: 0,
                    arguments: 0,
                },
                Sign::Constructor { .. } => sign,
            },
            Change::Substitution(_) => sign,
        }
    }
}
