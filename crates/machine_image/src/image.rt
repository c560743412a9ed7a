//! Images.

ghost use Rattle.std.specs.Prelude.{◌≡◌, ◌≢◌, ◌<◌, ◌≤◌, ◌++◌, length, All, AllPairs};
ghost use Rattle.std.specs.FinSet as set;
ghost use Rattle.machine_shape.specs.Vocabulary.{pins_of, most_ticks, most_closed};
ghost use Rattle.machine_image.specs.Images.{IsImage, tables_on};

use machine_config::Config;
use std::marker::Model;

/// A configuration with its input pins and its output pins. They are pins of the machine, each named once over both
/// lists; what is set is of the machine, and no more crosspoints are closed and tables on than an image of the machine may
/// have: 1,048,576 and 4,096, and of a machine that isn't small 3,670,016 and 65,535.
#[derive(Drop)]
pub struct Image {
    config: Config,
    inputs: Vec<u32>,
    outputs: Vec<u32>,
}

impl Model for Image {
    ghost use Rattle.machine_image.specs.Images.{ImageValue, IsImage, coded_image};

    ghost Value = { ImageValue };

    ghost coded = { coded_image };

    ghost view = { λ i. record { config = i.config.config; inputs = i.inputs.items; outputs = i.outputs.items } };

    ghost invariant = { λ i. IsImage (record { config = i.config.config; inputs = i.inputs.items; outputs = i.outputs.items }) };
}

impl Image {
    /// An image of a configuration and of pins of its machine.
    pub fn new(config: Config, inputs: Vec<u32>, outputs: Vec<u32>) -> Image
        requires within { All (λ k. k < pins_of config.config.shape) (inputs.items ++ outputs.items) }
        requires apart { AllPairs (λ j k. j ≢ k) (inputs.items ++ outputs.items) }
        requires few { set.len config.config.closed ≤ most_closed config.config.shape }
        requires few_on { length (tables_on config.config) ≤ most_ticks config.config.shape }
        ensures value { result ≡ record { config = config.config; inputs = inputs.items; outputs = outputs.items } }
        ensures right { IsImage result }
    {
        // Says that what is set is of the machine.
        let _shape = config.shape();
        Image {
            config,
            inputs,
            outputs,
        }
    }

    /// The configuration.
    pub fn config(&self) -> &Config
        ensures config { result.now.config ≡ self.now.config }
        ensures right { IsImage self.now }
    {
        &self.config
    }

    /// The input pins.
    pub fn inputs(&self) -> &[u32]
        ensures pins { result.now ≡ self.now.inputs }
        ensures right { IsImage self.now }
    {
        &self.inputs
    }

    /// The output pins.
    pub fn outputs(&self) -> &[u32]
        ensures pins { result.now ≡ self.now.outputs }
        ensures right { IsImage self.now }
    {
        &self.outputs
    }
}
