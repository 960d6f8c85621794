//! What the sites of a rule break.

ghost use Rattle.std.specs.Prelude.{◌≡◌, ◌≢◌, false};
ghost use Rattle.std.specs.List.{Contains};
ghost use Rattle.ecd_uses.specs.Sites.{sites_of};
ghost use Rattle.ecd_bodies.specs.Named.{is_parameter};
ghost use Rattle.ecd_bodies.specs.Reaching.{Uses};
ghost use Rattle.ecd_names.specs.Breaks.{SiteBreaks};
ghost use Rattle.ecd_first.specs.Firsts.{offset, Sees, EachOf};
ghost use Rattle.ecd_names.specs.Scenes.{IsScene};

use crate::scene::Scene;
use ecd_first::First;
use ecd_syntax::Name;
use ecd_uses::{Asked, Site};

/// N2 to N5 at a name that is used.
fn judge_use(scene: &Scene, first: &mut First<u32>, name: &Name, args: usize, asked: Asked)
    requires scene { IsScene scene.now }
    requires used { is_parameter scene.now.rule.now.params name.now.text ≡ false → Uses scene.now.table.now scene.now.rule.now.name.text name.now.text }
    ensures { Sees offset first.old.broken first.new.broken (SiteBreaks scene.now.table.now scene.now.rule.now (Site.Use name.now args asked)) }
{
    let text = name.text.as_slice();
    let is_undefined = scene.is_undefined(text);
    first.note(is_undefined, name.at, 2);
    let is_recursive = scene.is_recursive(text);
    first.note(is_recursive, name.at, 3);
    let arity = scene.arity(text);
    first.note(args != arity, name.at, 4);
    let is_other_kind = scene.is_other_kind(text, asked);
    first.note(is_other_kind, name.at, 5);
}

/// What a site breaks.
fn judge_site(scene: &Scene, first: &mut First<u32>, site: &Site)
    requires scene { IsScene scene.now }
    requires among { Contains (sites_of scene.now.rule.now) site.now }
    ensures { Sees offset first.old.broken first.new.broken (SiteBreaks scene.now.table.now scene.now.rule.now site.now) }
{
    match site {
        Site::Use { name, args, asked } => judge_use(scene, first, name, *args, *asked),
        Site::Parenthesis { at, lead } => {
            let is_group = scene.leads_to_group(lead);
            first.note(is_group, *at, 5);
        }
    }
}

/// What the sites of the rule break.
pub(crate) fn judge_sites(scene: &Scene, first: &mut First<u32>)
    requires { IsScene scene.now }
    ensures { Sees offset first.old.broken first.new.broken (EachOf (SiteBreaks scene.now.table.now scene.now.rule.now) (sites_of scene.now.rule.now)) }
{
    for site in scene.scope.sites.as_slice() {
        judge_site(scene, first, site);
    }
}
