// The numbers of the statuses.
use dsr_script::{Status, Verdict};

const STATUSES: [Status; 14] = [
    Status::Said(Verdict::Ok),
    Status::Said(Verdict::Inconsistent),
    Status::Said(Verdict::PlanRefused),
    Status::Said(Verdict::Usage),
    Status::Said(Verdict::SpecRefused),
    Status::Said(Verdict::LayoutRefused),
    Status::Said(Verdict::SupplyEmpty),
    Status::StoreFailed,
    Status::OutputFailed,
    Status::TooLong,
    Status::NoMemory,
    Status::Said(Verdict::CertRefused),
    Status::Said(Verdict::ReportRefused),
    Status::Said(Verdict::EditRefused),
];

#[test]
fn statuses_have_their_numbers(rt: HostRuntime) {
    for (number, status) in STATUSES.iter().enumerate() {
        assert_eq!(rt; usize::from(status.number()), number);
    }
}
