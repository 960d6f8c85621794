//! Schemas, and the sites and leads of their rules as text.

use ecd_lex::{MOST_BYTES, lex};
use ecd_list::{List, OutOfMemory};
use ecd_parse::parse;
use ecd_syntax::{
    Alts, Assign, ByteList, Entry, Form, GroupTree, Key, Name, Rule, Tree, Type1, Type2, WayTree,
};
use ecd_uses::{Asked, Lead, Site, SiteList, lead, sites};
use std::alloc::{AllocError, Global};
use std::test::Fail;

fn tree_of(alloc: Global, text: &str) -> Result<Tree, Fail> {
    if text.len() > MOST_BYTES {
        return Err("too long".into());
    }
    let tokens = lex(alloc, text).ok().ok_or("a fault of lexemes")?;
    let tree = parse(alloc, &tokens, text.len() as u32).ok();
    Ok(tree.ok_or("a fault of grammar")?)
}

/// Text that grows.
#[derive(Drop)]
struct Output {
    alloc: Global,
    text: Vec<u8>,
}

impl Output {
    fn put(&mut self, word: &str) -> Result<(), AllocError> {
        self.text.extend_from_slice(word.as_bytes())
    }

    fn number(&mut self, mark: &str, number: u64) -> Result<(), AllocError> {
        let digits = format!(in self.alloc; "{mark}{number}")?;
        self.put(digits.as_str())
    }

    fn name(&mut self, name: &Name) -> Result<(), AllocError> {
        self.text.extend_from_slice(name.text.as_slice())?;
        self.number("@", name.at as u64)
    }

    fn lead(&mut self, lead: &Lead) -> Result<(), AllocError> {
        match lead {
            Lead::Group => self.put("group"),
            Lead::Type => self.put("type"),
            Lead::Named(name) => self.name(name),
        }
    }

    fn site(&mut self, site: &Site) -> Result<(), AllocError> {
        match site {
            Site::Use { name, args, asked } => {
                self.name(name)?;
                self.number(" ", *args as u64)?;
                self.put(match asked {
                    Asked::Anything => " any",
                    Asked::AType => " type",
                    Asked::AGroup => " group",
                })
            }
            Site::Parenthesis { at, lead } => {
                self.number("(@", *at as u64)?;
                self.put(" ")?;
                self.lead(lead)
            }
        }
    }
}

fn sites_shown(alloc: Global, tree: &Tree) -> Result<Vec<u8>, Fail> {
    let mut output = Output {
        alloc,
        text: Vec::new(alloc),
    };
    for rule in tree.rules.as_slice() {
        let found = sites(alloc, rule).ok().ok_or("no memory")?;
        for site in found.as_slice() {
            output.site(site)?;
            output.put(";")?;
        }
    }
    Ok(output.text)
}

fn leads_shown(alloc: Global, tree: &Tree) -> Result<Vec<u8>, Fail> {
    let mut output = Output {
        alloc,
        text: Vec::new(alloc),
    };
    for rule in tree.rules.as_slice() {
        let found = lead(alloc, &rule.body).ok().ok_or("no memory")?;
        output.lead(&found)?;
        output.put(";")?;
    }
    Ok(output.text)
}

#[test]
fn names_are_found_with_what_is_asked(rt: HostRuntime) -> Result<(), Fail> {
    for (text, want) in [
        ("a = int", "int@4 0 any;"),
        ("a = 5", ""),
        ("a = int / tstr", "int@4 0 type;tstr@10 0 type;"),
        ("a /= int", "int@5 0 type;"),
        ("a //= int", "int@6 0 any;"),
        ("a = 1..max", "max@7 0 type;"),
        ("a = x .size y", "x@4 0 type;y@12 0 type;"),
        ("a = [int, tstr]", "int@5 0 any;tstr@10 0 any;"),
        ("a = {x: int}", "int@8 0 type;"),
        ("a = {x => int}", "x@5 0 type;int@10 0 type;"),
        ("a = {x ^ => int}", "x@5 0 type;int@12 0 type;"),
        ("a = {1: int // y}", "int@8 0 type;y@15 0 any;"),
        ("a = b<c>", "b@4 1 any;c@6 0 type;"),
        (
            "a = b<c<d, e>, f>",
            "b@4 2 any;c@6 2 type;d@8 0 type;e@11 0 type;f@15 0 type;",
        ),
        ("a = &g", "g@5 0 group;"),
        ("a = &g<b>", "g@5 1 group;b@7 0 type;"),
        ("a = &(x: 1, y)", "y@12 0 any;"),
        ("a = ~b<c>", "b@5 1 type;c@7 0 type;"),
        ("a = #6.1(b)", "b@9 0 type;"),
        ("a = #6(b / c)", "b@7 0 type;c@11 0 type;"),
        ("a = [#6.1, #]", ""),
        ("a<t> = [t]", "t@8 0 any;"),
        ("a = b c = d", "b@4 0 any;d@10 0 any;"),
    ] {
        let tree = tree_of(rt.alloc(), text)?;
        let shown = sites_shown(rt.alloc(), &tree)?;
        assert_eq!(rt; shown.as_slice(), want.as_bytes(), "{text}");
    }
    Ok(())
}

#[test]
fn parentheses_are_found_where_a_type_is_asked_for(rt: HostRuntime) -> Result<(), Fail> {
    for (text, want) in [
        ("a = (int)", "int@5 0 any;"),
        (
            "a = ((int, int)) / b",
            "(@4 group;int@6 0 any;int@11 0 any;b@19 0 type;",
        ),
        ("a = (int) / b", "(@4 int@5;int@5 0 any;b@12 0 type;"),
        ("a = (1 // 2) / b", "(@4 group;b@15 0 type;"),
        ("a = ([int]) / b", "(@4 type;int@6 0 any;b@14 0 type;"),
        ("a = (? int) / b", "(@4 group;int@7 0 any;b@14 0 type;"),
        ("a = b<(c: int)>", "b@4 1 any;(@6 group;int@10 0 type;"),
        (
            "a = [2*3 b, x: (c, d)]",
            "b@9 0 any;(@15 group;c@16 0 any;d@19 0 any;",
        ),
        ("a /= (int)", "(@5 int@6;int@6 0 any;"),
        ("a = #6((b))", "(@7 b@8;b@8 0 any;"),
        ("a = {(b) => 1}", "(@5 b@6;b@6 0 any;"),
    ] {
        let tree = tree_of(rt.alloc(), text)?;
        let shown = sites_shown(rt.alloc(), &tree)?;
        assert_eq!(rt; shown.as_slice(), want.as_bytes(), "{text}");
    }
    Ok(())
}

#[test]
fn an_entry_is_led_by_its_only_part(rt: HostRuntime) -> Result<(), Fail> {
    for (text, want) in [
        ("a = int", "int@4;"),
        ("a = b<c>", "b@4;"),
        ("a = (int)", "int@5;"),
        ("a = ((int))", "int@6;"),
        ("a = (int, int)", "group;"),
        ("a = ()", "group;"),
        ("a = (1 // 2)", "group;"),
        ("a = (? b)", "group;"),
        ("a = ? b", "group;"),
        ("a = x: b", "group;"),
        ("a = b => c", "group;"),
        ("a = 1: b", "group;"),
        ("a = b / c", "type;"),
        ("a = (b / c)", "type;"),
        ("a = 1..b", "type;"),
        ("a = b .size 1", "type;"),
        ("a = 1", "type;"),
        ("a = ~b", "type;"),
        ("a = &b", "type;"),
        ("a = &(b)", "type;"),
        ("a = [b]", "type;"),
        ("a = {b}", "type;"),
        ("a = #6.1(b)", "type;"),
        ("a = #", "type;"),
    ] {
        let tree = tree_of(rt.alloc(), text)?;
        let shown = leads_shown(rt.alloc(), &tree)?;
        assert_eq!(rt; shown.as_slice(), want.as_bytes(), "{text}");
    }
    Ok(())
}

/// The name `b` with so many arguments inside each other.
fn nested(alloc: Global, levels: u32) -> Result<Entry, OutOfMemory> {
    let mut args = List::new(alloc);
    for _ in 0..levels {
        args = List::from_vec(vec![in alloc; choice_of(alloc, args)?]?);
    }
    entry_of(alloc, choice_of(alloc, args)?)
}

/// The name `b` in so many parentheses.
fn in_parentheses(alloc: Global, levels: u32) -> Result<Entry, OutOfMemory> {
    let mut entry = entry_of(alloc, choice_of(alloc, List::new(alloc))?)?;
    for _ in 0..levels {
        let entries = List::from_vec(vec![in alloc; entry]?);
        let ways = List::from_vec(vec![in alloc; WayTree { at: 0, entries }]?);
        let form = Form::Paren(GroupTree { at: 0, ways });
        entry = entry_of(alloc, alone(form))?;
    }
    Ok(entry)
}

fn entry_of(alloc: Global, choice: Type1) -> Result<Entry, OutOfMemory> {
    let choices = List::from_vec(vec![in alloc; choice]?);
    Ok(Entry {
        at: 0,
        occur: None,
        key: Key::Missing,
        body: Alts { at: 0, choices },
    })
}

fn choice_of(alloc: Global, args: List<Type1>) -> Result<Type1, OutOfMemory> {
    let text = ByteList::from_slice(alloc, &[b'b'])?;
    let name = Name { at: 0, text };
    Ok(alone(Form::Named { name, args }))
}

/// A choice without an operator.
fn alone(form: Form) -> Type1 {
    Type1 {
        at: 0,
        left: Type2 { at: 0, form },
        op: None,
    }
}

/// The rule `a /= ` with this body.
fn adding(alloc: Global, body: Entry) -> Result<Rule, OutOfMemory> {
    let text = ByteList::from_slice(alloc, &[b'a'])?;
    Ok(Rule {
        at: 0,
        name: Name { at: 0, text },
        params: List::new(alloc),
        assign: Assign::TypeMore,
        body,
    })
}

#[test]
fn arguments_end_the_memory_of_the_stack_behind_the_most_levels(
    rt: HostRuntime,
) -> Result<(), Fail> {
    for (levels, want) in [(249, Some(250)), (250, None), (1500, None)] {
        let rule = adding(rt.alloc(), nested(rt.alloc(), levels)?)?;
        let count = sites(rt.alloc(), &rule).ok().map(|found| found.len());
        assert_eq!(rt; count, want, "{levels}");
    }
    Ok(())
}

#[test]
fn parentheses_end_the_memory_of_the_stack_behind_the_most_levels(
    rt: HostRuntime,
) -> Result<(), Fail> {
    // The name is a choice itself, so 249 parentheses around it make 250 levels.
    for (parentheses, is_taken) in [(248, true), (249, true), (250, false), (1500, false)] {
        let rule = adding(rt.alloc(), in_parentheses(rt.alloc(), parentheses)?)?;
        let is_named = matches!(lead(rt.alloc(), &rule.body), Ok(Lead::Named(_)));
        assert_eq!(rt; is_named, is_taken, "{parentheses}");
        let is_refused = matches!(lead(rt.alloc(), &rule.body), Err(OutOfMemory));
        assert_eq!(rt; is_refused, !is_taken, "{parentheses}");
        let count = sites(rt.alloc(), &rule).ok().map(|found| found.len());
        assert_eq!(rt; count, is_taken.then_some(2), "{parentheses}");
    }
    Ok(())
}
