//! The words of steps, with what each states.

use ft_lines::line;
use ft_stated::Stated;
use ft_syntax::Terms;
use std::alloc::Global;
use std::test::Fail;

// Each step, with the beginning of what it states, and a list in it.
const STEPS: [(&str, &str, &str); 30] = [
    ("var 7", "Var(7)", ""),
    ("generic 7", "Generic(7)", ""),
    ("meta 7 3 1", "Meta(7, ", "[3, 1]"),
    ("metacong 7 3 1", "Metacong(7, ", "[3, 1]"),
    ("abs 7 3", "Abs(7, 3)", ""),
    ("subst 7 3", "Subst(7, 3)", ""),
    ("substeq 7 3", "Substeq(7, 3)", ""),
    ("refl 7", "Refl(7)", ""),
    ("sym 7", "Sym(7)", ""),
    ("trans 7 3", "Trans(7, 3)", ""),
    ("conv 7 3", "Conv(7, 3)", ""),
    ("conveq 7 3", "Conveq(7, 3)", ""),
    ("left 7", "Left(7)", ""),
    ("right 7", "Right(7)", ""),
    ("typeof 7", "Typeof(7)", ""),
    ("domain 7", "Domain(7)", ""),
    ("boundary 7", "Boundary(7)", ""),
    ("widen 7 3", "Widen(7, 3)", ""),
    ("btype", "Btype", ""),
    ("bterm 7", "Bterm(7)", ""),
    ("beqty 7 3", "Beqty(7, 3)", ""),
    ("beqtm 7 3 1", "Beqtm(7, 3, 1)", ""),
    ("rule 7 3 1", "Rule(7, ", "[3, 1]"),
    ("rulewith 7 3 1", "Rulewith(7, 3, ", "[1]"),
    ("inst 7 3 1", "Inst(7, ", "[3, 1]"),
    ("cong 7 3 1 / 4", "Cong(7, ", "[4]"),
    ("convprem 7 3 1 / 4 / 9", "Convprem(7, ", "[3, 1]"),
    ("convback 7 / 3 1 / 9", "Convback(7, ", "[3, 1]"),
    ("arg 7 3", "Arg(7, 3)", ""),
    ("natural 7", "Natural(7)", ""),
];

// What the step of an entry states.
fn stated(alloc: Global, step: &str) -> Result<String, Fail> {
    let mut terms = Terms::new(alloc);
    let text = format!(in alloc; "J T s0() [] {step}")?;
    match line(alloc, &mut terms, text.as_bytes()) {
        Ok(Stated::Thesis(_, _, step)) => Ok(format!(in alloc; "{step:?}")?),
        _ => Ok(String::new(alloc)),
    }
}

#[test]
fn each_word_states_its_step(rt: HostRuntime) -> Result<(), Fail> {
    for (step, front, list) in STEPS {
        let text = stated(rt.alloc(), step)?;
        assert!(rt; text.starts_with(front), "{step}");
        assert!(rt; text.contains(list), "{step}");
    }
    Ok(())
}
