//! What holds of labels. Each function states one law; nothing is computed.
ghost use Rattle.cfi_class.specs.Labels.{LabelsRise};

/// Labels each of which is the least that is free rise.
pub fn labels_rise()
    ensures { LabelsRise }
{}
