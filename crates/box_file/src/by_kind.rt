//! Splits the lines of a box file by kind.
ghost use Rattle.std.specs.Prelude.{◌≡◌, ◌++◌, [], map, IfOk};
ghost use Rattle.std.specs.List.{cons_option};
ghost use Rattle.box_file.specs.Box.{interface_in, route_in, default_in, idle_in};
ghost use Rattle.box_file.specs.steps.Reading.{interface_tree, route_tree, idle_tree, line_tree};
ghost use Rattle.box_file.specs.steps.Tests.{AreLinesByKind};

use crate::idle_line::IdleLine;
use crate::line::{InterfaceLine, Line, RouteLine};
use std::alloc::{AllocError, Global};

/// The lines of a text by kind, in text order.
pub struct LinesByKind<'t> {
    pub interfaces: Vec<InterfaceLine<'t>>,
    pub routes: Vec<RouteLine<'t>>,
    /// The names of the default lines.
    pub defaults: Vec<&'t [u8]>,
    pub idles: Vec<IdleLine<'t>>,
}

// Written out, so that dropping one is a call.
impl Drop for LinesByKind<'_> {
    fn drop(self) {
        let LinesByKind {
            interfaces: _,
            routes: _,
            defaults: _,
            idles: _,
        } = self;
    }
}

impl<'t> LinesByKind<'t> {
    /// Adds a line to those of its kind.
    fn add(&mut self, line: &Line<'t>) -> Result<(), AllocError>
        ensures interfaces { IfOk result (λ _. map interface_tree self.new.interfaces.items
            ≡ map interface_tree self.old.interfaces.items
            ++ cons_option (interface_in (line_tree line.now)) []) }
        ensures routes { IfOk result (λ _. map route_tree self.new.routes.items
            ≡ map route_tree self.old.routes.items
            ++ cons_option (route_in (line_tree line.now)) []) }
        ensures defaults { IfOk result (λ _. map (λ n. n.now) self.new.defaults.items
            ≡ map (λ n. n.now) self.old.defaults.items
            ++ cons_option (default_in (line_tree line.now)) []) }
        ensures idles { IfOk result (λ _. map idle_tree self.new.idles.items
            ≡ map idle_tree self.old.idles.items ++ cons_option (idle_in (line_tree line.now)) []) }
    {
        match line {
            Line::Interface(interface) => self.interfaces.push(*interface)?,
            Line::Route(route) => self.routes.push(*route)?,
            Line::Default(name) => self.defaults.push(*name)?,
            Line::Idle(idle) => self.idles.push(*idle)?,
        }
        Ok(())
    }
}

/// Splits the lines by kind.
pub fn lines_by_kind<'t>(alloc: Global, lines: &[Line<'t>]) -> Result<LinesByKind<'t>, AllocError>
    ensures { IfOk result (λ s. AreLinesByKind (map line_tree lines.now)
        (map interface_tree s.interfaces.items) (map route_tree s.routes.items)
        (map (λ n. n.now) s.defaults.items) (map idle_tree s.idles.items)) }
{
    let mut by_kind = LinesByKind {
        interfaces: Vec::new(alloc),
        routes: Vec::new(alloc),
        defaults: Vec::new(alloc),
        idles: Vec::new(alloc),
    };
    for line in lines {
        by_kind.add(line)?;
    }
    Ok(by_kind)
}
