// The T-rules of an accepted rule set as steps over terms.
ghost use Rattle.std.specs.Prelude.{◌≡◌, ◌<◌, List, None, length, map, take, option_map, Contains, IfOk};
ghost use Rattle.derivation.specs.Stands.{Stands, StandAll};
ghost use Rattle.enforcer_find.specs.Enforcers.{has_null, operator_rules};
ghost use Rattle.pr_value.specs.Trees.{Tree, trees_of};
ghost use Rattle.property_classes.specs.Classes.{classes_of};
ghost use Rattle.tree_terms.specs.Dressed.{dressed_roots};
ghost use Rattle.tree_terms.specs.TermSteps.{Rewrites, StepsBy};
ghost use Rattle.tree_terms.specs.declared.labels.TreeLabel.{TreeLabel};
ghost use Rattle.rule_ast.specs.Descs.{stream_descs};
ghost use Rattle.rule_ast.specs.Roles.{is_enforcer};
ghost use Rattle.rule_ast.specs.Seen.{seen_irule, seen_left, seen_trule};
ghost use Rattle.rule_ast.specs.SeenRules.{seen_rules};
ghost use Rattle.rule_runs.specs.Conditions.{AreSlotsOf};
ghost use Rattle.rule_runs.specs.Laws.{MatchAlike};
ghost use Rattle.rule_runs.specs.Matching.{matched};
ghost use Rattle.rule_runs.specs.SeenMatches.{seen_matched};
ghost use Rattle.rule_runs.specs.SeenSides.{seen_side};
ghost use Rattle.rule_types.specs.Conditions.{refused_by};

use crate::dressing::Dressing;
use crate::labels::TreeLabel;
use crate::roots::TermRoots;
use crate::term_fits::is_match_fit;
use crate::term_making::make_term;
use catalog::Catalog;
use derivation::{Steps, Terms};
use descriptor_types::Layout;
use enforcer_find::Enforcers;
use pr_value::Memory;
use property_classes::Classes;
use rule_ast::{Copied, Rules, TRule};
use rule_runs::{Matched, Side, find_match, left_side, right_side, run_trule};
use rule_trees::Under;
use rule_types::Accepted;
use std::alloc::Global;

/// The T-rules of an accepted rule set over a catalog, as steps. The enforcers are kept, so that no
/// step looks for them.
#[derive(Drop)]
pub struct TreeSteps {
    pub rules: Rules,
    pub layout: Layout,
    pub classes: Classes,
    pub enforcers: Enforcers,
    pub catalog: Catalog,
    pub ghost accepted: { refused_by (seen_rules rules) ≡ None },
    pub ghost laid_out: { layout ≡ rules.properties },
    pub ghost classed: { classes ≡ classes_of (seen_rules rules) },
    pub ghost enforced: { enforcers ≡ operator_rules (seen_rules rules) },
    pub ghost found: { map has_null enforcers
        ≡ map (λ o. is_enforcer (map seen_irule rules.irules) o.name) rules.operators },
}

/// What the side matches at the root of the tree that the term stands for.
fn find_at(
    alloc: Global,
    under: &Under,
    side: &Side,
    terms: &Terms<TreeLabel>,
    node: usize,
) -> Result<Option<Matched<usize>>, Memory>
    ensures { IfOk result (λ o. (u : Tree TreeLabel) → Stands terms.now node u
        → MatchAlike (Stands terms.now) (option_map (seen_matched (λ n. n)) o)
        (matched (dressed_roots (seen_rules under.now.rules.now)) (seen_side side.now) u)) }
{
    let roots = TermRoots { under, terms };
    find_match(alloc, &roots, side, node)
}

/// The term of what the rule makes of what its left side matched, or none where its test is false.
fn rewritten_term(
    alloc: Global,
    under: &Under,
    enforcers: &Enforcers,
    rule: &TRule,
    found: &Matched<usize>,
    terms: &mut Terms<TreeLabel>,
) -> Result<Option<usize>, Memory>
    requires rule { Contains (seen_rules under.now.rules.now).trules (seen_trule rule.now) }
    requires enforcers { map has_null enforcers.now
        ≡ map (λ o. is_enforcer (map seen_irule under.now.rules.now.irules) o.name)
        under.now.rules.now.operators }
    requires slots { AreSlotsOf (seen_rules under.now.rules.now) (seen_left rule.now.left)
        found.now.slots }
    requires as_many { length found.now.streams.items
        ≡ length (stream_descs (seen_left rule.now.left)) }
    requires stand { (us : List (Tree TreeLabel))
        × StandAll terms.old found.now.streams.items (trees_of us) }
    ensures kept { take (length terms.old) terms.new ≡ terms.old }
    ensures made { IfOk result (Rewrites (seen_rules under.now.rules.now) under.now.catalog.now
        (seen_trule rule.now) found.now.slots found.now.streams.items terms.old terms.new) }
{
    let rules = under.rules;
    let descs = run_trule(
        alloc,
        rules,
        under.layout,
        under.catalog,
        rule,
        &found.slots,
    )?;
    let Some(descs) = descs else {
        return Ok(None);
    };
    let operators = rules.operators.as_slice();
    let side = right_side(alloc, operators, &rule.left, &rule.right)?;
    let dressing = Dressing {
        rules,
        layout: under.layout,
        classes: under.classes,
        enforcers,
    };
    let (number, _rest) = make_term(
        alloc,
        &dressing,
        found.streams.as_slice(),
        &side,
        descs.as_slice(),
        terms,
    )?;
    Ok(Some(number))
}

/// The term of what the rule makes of the term's tree, or none where it does not apply.
fn step_by(
    alloc: Global,
    under: &Under,
    enforcers: &Enforcers,
    rule: &TRule,
    terms: &mut Terms<TreeLabel>,
    node: usize,
) -> Result<Option<usize>, Memory>
    requires rule { Contains (seen_rules under.now.rules.now).trules (seen_trule rule.now) }
    requires enforcers { map has_null enforcers.now
        ≡ map (λ o. is_enforcer (map seen_irule under.now.rules.now.irules) o.name)
        under.now.rules.now.operators }
    requires node { node < length terms.old }
    ensures kept { take (length terms.old) terms.new ≡ terms.old }
    ensures step { IfOk result (StepsBy (seen_rules under.now.rules.now) under.now.catalog.now
        (seen_trule rule.now) terms.old node terms.new) }
{
    terms.sound();
    let side = left_side(alloc, under.rules.operators.as_slice(), &rule.left)?;
    let Some(found) = find_at(alloc, under, &side, terms, node)? else {
        return Ok(None);
    };
    if !is_match_fit(under.layout, terms, &found) {
        return Ok(None);
    }
    let made = rewritten_term(alloc, under, enforcers, rule, &found, terms)?;
    Ok(made)
}

impl TreeSteps {
    /// The steps of these rules over this catalog, of which copies are kept.
    pub fn new(
        alloc: Global,
        a: &Accepted,
        c: &Classes,
        catalog: &Catalog,
    ) -> Result<TreeSteps, Memory>
        requires classes { c.now ≡ classes_of (seen_rules a.now.rules) }
        ensures rules { IfOk result (λ s. s.rules ≡ a.now.rules) }
        ensures catalog { IfOk result (λ s. s.catalog ≡ catalog.now) }
    {
        let rules = a.rules().copy(alloc)?;
        let layout = a.layout().copy(alloc)?;
        let classes = c.copy(alloc)?;
        let enforcers = Enforcers::of(alloc, &rules)?;
        let catalog = catalog.copy(alloc)?;
        Ok(TreeSteps {
            rules,
            layout,
            classes,
            enforcers,
            catalog,
        })
    }
}

impl Steps<TreeLabel> for TreeSteps {
    ghost use Rattle.tree_terms.specs.Dressed.{dressed_step};
    ghost use Rattle.rule_ast.specs.SeenRules.{seen_rules};

    ghost stepped = { λ s. dressed_step (seen_rules s.rules) s.catalog };

    fn step(
        &self,
        alloc: Global,
        rule: usize,
        terms: &mut Terms<TreeLabel>,
        node: usize,
    ) -> Result<Option<usize>, Memory> {
        let under = Under {
            rules: &self.rules,
            layout: &self.layout,
            classes: &self.classes,
            catalog: &self.catalog,
        };
        let Some(trule) = self.rules.trules.as_slice().get(rule) else {
            return Ok(None);
        };
        let made = step_by(alloc, &under, &self.enforcers, trule, terms, node)?;
        Ok(made)
    }

    fn copy(&self, alloc: Global) -> Result<TreeSteps, Memory> {
        let rules = self.rules.copy(alloc)?;
        let layout = self.layout.copy(alloc)?;
        let classes = self.classes.copy(alloc)?;
        let enforcers = Enforcers::of(alloc, &rules)?;
        let catalog = self.catalog.copy(alloc)?;
        Ok(TreeSteps {
            rules,
            layout,
            classes,
            enforcers,
            catalog,
        })
    }
}
