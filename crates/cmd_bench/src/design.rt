//! The netlist of the generated design.

ghost use Rattle.std.specs.Prelude.{◌≡◌, ◌≤◌, length};
ghost use Rattle.design_netlist.specs.declared.netlist_data.NetlistData.{NetlistData};
ghost use Rattle.design_blif.specs.Designs.{IsDesign};
ghost use Rattle.machine_bench.specs.Work.{bench_design};
ghost use Rattle.cmd_bench.specs.Design.{bench_draft};

/// The text of the generated design is that of its netlist, and of no other.
pub fn the_bench_design_is_a_design()
    ensures design { IsDesign bench_design bench_draft }
    ensures only { (d : NetlistData) → IsDesign bench_design d → d ≡ bench_draft }
    ensures short { length bench_design ≤ 16777216 }
{
    design_blif::laws::a_text_has_one_design();
}
