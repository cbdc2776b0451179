// The station program (document 01): the sheet on standard input, at most 707 bytes of it, to its stations on standard output. Where
// reading or writing fails, standard error says why; after a failed read nothing is printed.
#![tactic(auto)]

fn main(rt: HostRuntime) {
    let sheet = match sheet_input::read_sheet(&mut rt.stdin()) {
        Ok(sheet) => sheet,
        Err(error) => {
            failures::fail(&rt, "stations: standard input", error);
            return;
        }
    };
    let report = station_report::whole_report(sheet.as_slice());
    if let Err(error) = rt.write_all(report.as_slice()) {
        failures::fail(&rt, "stations: standard output", error);
    }
}
