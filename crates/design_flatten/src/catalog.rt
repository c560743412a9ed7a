//! The models by name, each with the names of its ports.

ghost use Rattle.std.specs.Prelude.{◌≡◌, [], map, IfOk, OnOk, slice_index_or};
ghost use Rattle.std.specs.Option.{option_copied};
ghost use Rattle.design_flatten.specs.Uses.{port_names};
ghost use Rattle.design_flatten.specs.NameSets.{with_names};
ghost use Rattle.design_flatten.specs.UseLines.{known_of, looked_up, IsAdded, IsCatalog};

use crate::given::name_at;
use crate::model::Model;
use crate::name_set::NameSet;
use crate::needs::names_within;
use design_netlist::{Name, PortDef};
use std::alloc::{AllocError, Global};
use std::collections::HashMap;

/// A model, the names that may be given to it, and those that stand on its lines.
#[derive(Drop)]
pub struct Known<'a> {
    pub model: &'a Model,
    pub ports: NameSet<'a>,
    /// The names on its lines.
    pub needs: NameSet<'a>,
}

/// The first model of each name.
#[derive(Drop)]
pub struct Catalog<'a> {
    pub models: &'a [Model],
    pub known: HashMap<&'a [u8], Known<'a>>,
}

fn add_ports<'a>(
    set: &mut NameSet<'a>,
    names: &'a [Name],
    ports: &[PortDef],
) -> Result<(), AllocError>
    ensures { OnOk result (set.new ≡ with_names set.old (map (λ p. slice_index_or names.now p.signal []) ports.now)) }
{
    'ports: for port in ports {
        set.add(name_at(names, port.signal as usize))?;
    }
    Ok(())
}

fn add_clocks<'a>(set: &mut NameSet<'a>, clocks: &'a [Name]) -> Result<(), AllocError>
    ensures { OnOk result (set.new ≡ with_names set.old clocks.now) }
{
    'clocks: for clock in clocks {
        set.add(clock.as_slice())?;
    }
    Ok(())
}

fn add_model<'a>(set: &mut NameSet<'a>, model: &'a Model) -> Result<(), AllocError>
    ensures { OnOk result (set.new ≡ with_names set.old (port_names model.now)) }
{
    let names = model.names.as_slice();
    add_ports(set, names, model.inputs.as_slice())?;
    add_ports(set, names, model.outputs.as_slice())?;
    add_clocks(set, model.clocks.as_slice())?;
    Ok(())
}

fn ports_of(alloc: Global, model: &Model) -> Result<NameSet<'_>, AllocError>
    ensures { IfOk result (λ ports. ports ≡ with_names [] (port_names model.now)) }
{
    let mut set = NameSet::new(alloc);
    add_model(&mut set, model)?;
    Ok(set)
}

fn known_model<'a>(alloc: Global, model: &'a Model) -> Result<Known<'a>, AllocError>
    ensures { IfOk result (λ known. known ≡ known_of model.entry) }
{
    let ports = ports_of(alloc, model)?;
    let needs = names_within(alloc, model)?;
    Ok(Known {
        model,
        ports,
        needs,
    })
}

impl<'a> Catalog<'a> {
    /// The model of a name.
    pub fn get(&self, name: &[u8]) -> Option<&Known<'a>>
        ensures { option_copied result ≡ looked_up self.now name.now }
    {
        self.known.get(name)
    }

    /// Adds a model, if its name is new.
    fn add(&mut self, alloc: Global, model: &'a Model) -> Result<(), AllocError>
        ensures models { self.new.models ≡ self.old.models }
        ensures added { OnOk result (IsAdded self.old model.entry self.new) }
    {
        let name = model.name.as_slice();
        if self.known.contains_key(name) {
            return Ok(());
        }
        let known = known_model(alloc, model)?;
        let _ = self.known.insert(name, known)?;
        Ok(())
    }

    /// The models by name.
    pub fn new(alloc: Global, models: &'a [Model]) -> Result<Self, AllocError>
        ensures models { IfOk result (λ c. c.models.now ≡ models.now) }
        ensures catalog { IfOk result (IsCatalog models.now) }
    {
        let mut catalog = Catalog {
            models,
            known: HashMap::new(alloc),
        };
        'models: for model in models {
            catalog.add(alloc, model)?;
        }
        Ok(catalog)
    }
}
